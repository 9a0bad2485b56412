// Runs recorded paths of the Rust through the proved crates, building and queries, and prints of each kind how many answers
// there were and how many differ. `oracle/record paths` writes the records to this crate's stdin, each after the letter of its
// kind.
#![tactic(auto)]

mod buildings;
mod queries;

use replay_records::{kind, none, tell};
use std::io;

// More blocks than there are.
const MOST: u32 = 2048;

fn main(rt: HostRuntime) -> io::Result<()> {
    let mut reader = rt.stdin();
    let mut path = none();
    let mut query = none();
    for _ in 0..MOST {
        match kind(&mut reader)? {
            b'b' => path = buildings::replay(&mut reader, path)?,
            b'q' => query = queries::replay(&mut reader, query)?,
            _ => {}
        }
    }
    tell(&rt, b"path", path)?;
    tell(&rt, b"query", query)
}
