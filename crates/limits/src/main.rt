// Runs check on the questions of standard input and writes one line for each. The first byte is their number; each stands behind its length
// in two bytes, as the fields of a question do. No more than 65,536 bytes are read.
#![tactic(auto)]

use questions::{MOST_INPUT, questions_in};
use std::io;
use std::io::Read;
use terms_checks::check::check;

fn write_answer(rt: &impl Print, question: &[u8]) -> io::Result<()> {
    match check(question) {
        Ok(()) => println!(rt; "accepted"),
        Err(refusal) => println!(rt; "refused {}", refusal.number()),
    }
}

fn main(rt: HostRuntime) -> io::Result<()> {
    let mut input = Vec::new(rt.alloc());
    rt.reader().take(MOST_INPUT).read_to_end(&mut input)?;
    for question in questions_in(&input) {
        write_answer(&rt, question)?;
    }
    Ok(())
}
