// Runs recorded lookups, curves, splines and shapes of the Rust through the proved crates, and prints of each kind how many
// answers there were and how many differ. `oracle/record curves` writes the records to this crate's stdin, each block after
// the letter of its kind.
#![tactic(auto)]

mod curves;
mod lookups;
mod rows;
mod segments;
mod shapes;
mod splines;

use replay_records::{kind, none, tell};
use std::io;

// More blocks than there are.
const MOST: u32 = 2048;

fn main(rt: HostRuntime) -> io::Result<()> {
    let mut reader = rt.stdin();
    let mut table = none();
    let mut bezier = none();
    let mut arc = none();
    let mut spline = none();
    let mut morph = none();
    for _ in 0..MOST {
        match kind(&mut reader)? {
            b't' => table = lookups::replay(&mut reader, table)?,
            b'b' => bezier = curves::replay(&mut reader, bezier)?,
            b'a' => arc = segments::replay(&mut reader, arc)?,
            b's' => spline = splines::replay(&mut reader, spline)?,
            b'm' => morph = shapes::replay(&mut reader, morph)?,
            b'd' => morph = shapes::replay_default(&mut reader, morph)?,
            _ => {}
        }
    }
    tell(&rt, b"table", table)?;
    tell(&rt, b"bezier", bezier)?;
    tell(&rt, b"arc", arc)?;
    tell(&rt, b"spline", spline)?;
    tell(&rt, b"morph", morph)
}
