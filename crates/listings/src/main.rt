// Lists steps of the questions of standard input: one line with the answer, then one line a step in hexadecimal, its filling left out. The first
// byte is the number of questions; each stands behind its length in two bytes, and begins with the side and the new name in one byte each. No more
// than 65,536 bytes are read.
#![tactic(auto)]

use questions::{MOST_INPUT, questions_in};
use std::io;
use std::io::Read;
use steps_entries::limits::{MOST_STEPS, STEP_BYTES};
use steps_lister::operation::steps;
use terms_bytes::bytes::get;
use terms_bytes::limits::NAME_COUNT;

const LISTING_BYTES: usize = STEP_BYTES * MOST_STEPS;

// Of more steps than this only the number is written.
const MOST_LINES: usize = 16;

// Where a step has the length of its result.
const SIZE: usize = NAME_COUNT + 3;

// A step without its filling.
fn print_step(rt: &impl Print, step: &[u8]) -> io::Result<()> {
    for byte in step.iter().take(SIZE + 1 + get(step, SIZE) as usize) {
        print!(rt; "{byte:02x}")?;
    }
    println!(rt; "")
}

fn print_steps(rt: &impl Print, area: &[u8], count: usize) -> io::Result<()> {
    if MOST_LINES < count {
        return Ok(());
    }
    for step in area.chunks(STEP_BYTES).take(count) {
        print_step(rt, step)?;
    }
    Ok(())
}

fn write_steps(rt: &impl Print, input: &[u8]) -> io::Result<()> {
    if input.len() < 2 {
        return Ok(());
    }
    let mut area = [0u8; LISTING_BYTES];
    let answer = steps(
        &input[2..],
        get(input, 0) as u64,
        get(input, 1) as u64,
        &mut area,
    );
    match answer {
        Ok(Some(n)) => {
            println!(rt; "steps {n}")?;
            print_steps(rt, &area, n)
        }
        Ok(None) => println!(rt; "unsettled 0"),
        Err(refusal) => println!(rt; "refused {}", refusal.number()),
    }
}

fn main(rt: HostRuntime) -> io::Result<()> {
    let mut input = Vec::new(rt.alloc());
    rt.reader().take(MOST_INPUT).read_to_end(&mut input)?;
    for question in questions_in(&input) {
        write_steps(&rt, question)?;
    }
    Ok(())
}
