// Runs recorded numbers of the Rust through the proved crates, and prints of each kind how many there were and how many
// differ. `oracle/record numbers` writes the records to this crate's stdin, each after the letter of its kind.
#![tactic(auto)]

mod decimals;
mod helpers;
mod lines;
mod turns;

use replay_records::{kind, none, tell};
use std::io;

// More blocks than there are.
const MOST: u32 = 2048;

fn main(rt: HostRuntime) -> io::Result<()> {
    let mut reader = rt.stdin();
    let mut math = none();
    let mut trig = none();
    let mut decimal = none();
    for _ in 0..MOST {
        match kind(&mut reader)? {
            b'm' => math = helpers::replay(&mut reader, math)?,
            b't' => trig = turns::replay(&mut reader, trig)?,
            b'd' => decimal = decimals::replay(&mut reader, decimal)?,
            _ => {}
        }
    }
    tell(&rt, b"math", math)?;
    tell(&rt, b"trig", trig)?;
    tell(&rt, b"decimal", decimal)
}
