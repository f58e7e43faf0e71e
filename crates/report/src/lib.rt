// Answers as lines of standard output. A line that cannot be written is an error.
#![tactic(auto)]

use check_numbers::CheckNumber;
use std::io;
use verdict_judge::judge::Verdict;

pub fn print_verdict<E: CheckNumber>(
    rt: &impl Print,
    judged: Result<Verdict, E>,
) -> io::Result<()> {
    match judged {
        Ok(Verdict::Unsettled) => println!(rt; "unsettled 0"),
        Ok(Verdict::Same(n)) => println!(rt; "same {n}"),
        Ok(Verdict::Different(n)) => println!(rt; "different {n}"),
        Err(refusal) => println!(rt; "refused {}", refusal.number()),
    }
}
