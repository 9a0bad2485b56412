// Runs recorded texts through the proved readers: what permissive reading answers, what strict reading says, what the station
// tool lists. Prints the listings, and then of the others how many there were and how many differ. `oracle/record reading`
// writes the texts to this crate's stdin, each after the letter of its kind.
#![tactic(auto)]

mod plans;
mod readings;
mod verdicts;

use replay_records::{kind, none, tell};
use std::io;

// More texts than there are.
const MOST: u32 = 2048;

fn main(rt: HostRuntime) -> io::Result<()> {
    let mut reader = rt.stdin();
    let mut svg = none();
    let mut strict = none();
    let mut stations = none();
    for _ in 0..MOST {
        match kind(&mut reader)? {
            b'r' => svg = readings::replay(&mut reader, svg)?,
            b's' => strict = verdicts::replay(&mut reader, strict)?,
            b'p' => stations = plans::replay(&rt, &mut reader, stations)?,
            _ => {}
        }
    }
    tell(&rt, b"svg", readings::replay_spaces(svg))?;
    tell(&rt, b"strict", strict)?;
    tell(&rt, b"stations", stations)
}
