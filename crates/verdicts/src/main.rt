// Judges the questions of standard input and writes one line for each. The first byte is their number; each stands behind its length in two
// bytes, and begins with a byte for the relation, 0 open, 1 late, 2 early, and with its capacity in two bytes. No more than 65,536 bytes are read.
#![tactic(auto)]

use questions::{MOST_INPUT, questions_in};
use report::print_verdict;
use std::io;
use std::io::Read;
use terms_bytes::bytes::get;
use verdict_answers::manner::Manner;
use verdict_judge::judge::judge_as;

const WORK_BYTES: usize = 65536;

fn write_answer(rt: &impl Print, input: &[u8], work: &mut [u8]) -> io::Result<()> {
    if input.len() < 3 {
        return Ok(());
    }
    let manner = match get(input, 0) {
        1 => Manner::Late,
        2 => Manner::Early,
        _ => Manner::Open,
    };
    let capacity = 256 * get(input, 1) as u64 + get(input, 2) as u64;
    print_verdict(rt, judge_as(&input[3..], capacity, work, manner))
}

fn main(rt: HostRuntime) -> io::Result<()> {
    let mut input = Vec::new(rt.alloc());
    rt.reader().take(MOST_INPUT).read_to_end(&mut input)?;
    let mut work = [0u8; WORK_BYTES];
    for question in questions_in(&input) {
        write_answer(&rt, question, &mut work)?;
    }
    Ok(())
}
