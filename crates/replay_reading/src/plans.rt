// The station tool: its listings, which are printed one after another. What is due is the answers of the Rust, in the words of
// document 01.
ghost use Rattle.std.specs.Prelude.{◌+◌, ◌≤◌, ◌<◌, length};

use replay_records::{Count, seen, two};
use std::io;
use std::io::Read;

// A plan stands after its count of bytes, four digits, and has at most this many.
const MOST: usize = 9999;

// Prints one listing more.
pub fn replay(rt: &impl Print, reader: &mut impl Read, count: Count) -> io::Result<Count> {
    let mut size = [b'0'; 4];
    input::read_full(reader, &mut size)?;
    let mut plan = [0u8; MOST];
    let n = four(&size, 0);
    let mut listing = [0u8; 65536];
    let whole = fly(rt, reader, &mut plan[..n], &mut listing)?;
    Ok(seen(count, whole))
}

// Whether a plan fills these places and its listing was printed.
fn fly(
    rt: &impl Print,
    reader: &mut impl Read,
    plan: &mut [u8],
    listing: &mut [u8],
) -> io::Result<bool> {
    let n = input::read_full(reader, plan)?;
    let count = station_listing::stations(&plan[..n], listing);
    let whole = n == plan.len();
    let printed = print(rt, listing, count)?;
    Ok(printed & whole)
}

// The first bytes of a listing, as many as it has.
fn print(rt: &impl Print, listing: &[u8], count: usize) -> io::Result<bool> {
    if listing.len() < count {
        return Ok(false);
    }
    rt.write_all(&listing[..count])?;
    Ok(true)
}

// The number that four digits stand for.
fn four(text: &[u8], at: usize) -> usize
    requires { at + 4 ≤ length text.now }
    ensures { result < 10000 }
{
    two(text, at) * 100 + two(text, at + 2)
}
