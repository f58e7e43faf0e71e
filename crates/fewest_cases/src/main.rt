// Finds the fewest pairs to hold apart for the questions of standard input, and writes one line for each. The first byte is their number; each
// stands behind its length in two bytes: the capacity in two bytes, how many bytes the result area is short of the longest list in one (0 or 1),
// the names behind their number, the question. No more than 65,536 bytes are read.
#![tactic(auto)]

use fewest_lists::best::Choice;
use fewest_search::apart::apart;
use questions::{MOST_INPUT, questions_in};
use std::io;
use std::io::Read;
use terms_bytes::answer::Refusal;
use terms_bytes::bytes::get;
use terms_bytes::limits::LONGEST_APART;

const WORK_BYTES: usize = 65536;

// The bytes of a list, in decimal.
fn print_list(rt: &impl Print, list: &[u8], n: usize) -> io::Result<()> {
    print!(rt; "length {n}")?;
    for byte in list.iter().take(n) {
        print!(rt; " {byte}")?;
    }
    println!(rt; "")
}

fn print_apart(rt: &impl Print, answer: Result<Choice, Refusal>, area: &[u8]) -> io::Result<()> {
    match answer {
        Ok(Choice::Unsettled) => println!(rt; "unsettled 0"),
        Ok(Choice::NoChoice) => println!(rt; "none 0"),
        Ok(Choice::Length(n)) => print_list(rt, area, n),
        Err(refusal) => println!(rt; "refused {}", refusal.number()),
    }
}

fn write_answer(rt: &impl Print, input: &[u8], work: &mut [u8]) -> io::Result<()> {
    let names = 4 + get(input, 3) as usize;
    if input.len() < names {
        return Ok(());
    }
    let capacity = 256 * get(input, 0) as u64 + get(input, 1) as u64;
    let short = if get(input, 2) == 0 { 0 } else { 1 };
    let mut longest = [255u8; LONGEST_APART];
    let area = &mut longest[short..];
    let answer = apart(&input[names..], capacity, &input[4..names], work, area);
    print_apart(rt, answer, area)
}

fn main(rt: HostRuntime) -> io::Result<()> {
    let mut input = Vec::new(rt.alloc());
    rt.reader().take(MOST_INPUT).read_to_end(&mut input)?;
    let mut work = [0u8; WORK_BYTES];
    for question in questions_in(&input) {
        write_answer(&rt, question, &mut work)?;
    }
    Ok(())
}
