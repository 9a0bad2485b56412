// The station tool: a plan on standard input, its listing on standard output. A plan is judged by its first 4,107 bytes: at most 9 digits,
// a line's end and 4,097 bytes of path text; what stands past them changes nothing.
#![tactic(auto)]

use std::io;

fn main(rt: HostRuntime) -> io::Result<()> {
    let mut plan = [0u8; 4107];
    let size = input::read_full(&mut rt.stdin(), &mut plan)?;
    let mut listing = [0u8; 69632];
    let count = station_listing::inner::stations_read(&plan, size, &mut listing);
    print(&rt, &listing, count)
}

// The first bytes of a listing, as many as it has.
fn print(rt: &impl Print, listing: &[u8], count: usize) -> io::Result<()> {
    if count <= listing.len() {
        rt.write_all(&listing[..count])?;
    }
    Ok(())
}
