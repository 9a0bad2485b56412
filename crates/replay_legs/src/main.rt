// Runs recorded paths through the autopilot's legs and prints how many answers there were and how many differ. The Rust has no
// flattening: `oracle/record legs` writes what a second implementation of the rule answers to this crate's stdin, each record after
// the letter l.
#![tactic(auto)]

mod rows;

use replay_records::{kind, none, tell};
use std::io;

// More records than there are.
const MOST: u32 = 512;

fn main(rt: HostRuntime) -> io::Result<()> {
    let mut reader = rt.stdin();
    let mut legs = none();
    for _ in 0..MOST {
        match kind(&mut reader)? {
            b'l' => legs = rows::replay(&mut reader, legs)?,
            _ => {}
        }
    }
    tell(&rt, b"legs", legs)
}
