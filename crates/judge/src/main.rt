// The program `judge`: a question on standard input, one line on standard output. The capacity is 256. Of a longer input only the first 65,536 bytes
// are read: such a question is longer than any that is accepted, and so is what is read of it.
#![tactic(auto)]

use field_slots::slot::SLOT_BYTES;
use report::print_verdict;
use std::io;
use std::io::Read;
use verdict_judge::judge::judge;

const CAPACITY: u64 = 256;

const WORK_BYTES: usize = SLOT_BYTES * CAPACITY as usize;

// No more of standard input is read.
const MOST_INPUT: u64 = 65536;

fn main(rt: HostRuntime) -> io::Result<()> {
    let mut question = Vec::new(rt.alloc());
    rt.reader().take(MOST_INPUT).read_to_end(&mut question)?;
    let mut work = [0u8; WORK_BYTES];
    print_verdict(&rt, judge(&question, CAPACITY, &mut work))
}
