// The program `census`: a line for each length from 1 to 5, with the length and the numbers of ordered pairs of parts of that many bytes that are the
// same, different and unsettled.
#![tactic(auto)]

use small_parts_count::count::count;
use small_parts_words::parts::GREATEST_LENGTH;
use std::io;

fn main(rt: HostRuntime) -> io::Result<()> {
    for size in 1..=GREATEST_LENGTH {
        if let Some(tally) = count(size) {
            println!(rt;
                "{size} {} {} {}",
                tally.same, tally.different, tally.unsettled
            )?;
        }
    }
    Ok(())
}
