// The entries.
ghost use Rattle.std.specs.Prelude.{◌≤◌, ◌≡◌, length, take};
ghost use Rattle.station_listing.specs.Stations.{Takes, Stations, ReadListed};

use crate::plans::tell;

// The length of a plan's listing, at most 69,632: no byte of it is kept.
fn needed(input: &[u8]) -> usize
    ensures { Takes input.now result }
{
    let mut nothing = [0u8; 1];
    tell(&mut nothing, input)
}

// Writes the listing of a plan from the output's start, and gives its length, at most 69,632. An output that is shorter than the listing is
// left as it was.
pub fn stations(input: &[u8], output: &mut [u8]) -> usize
    ensures { Stations input.now output.old result output.new }
{
    if 69632 <= output.len() {
        return tell(output, input);
    }
    let places = needed(input);
    if output.len() < places {
        return places;
    }
    tell(output, input)
}

// The same of the first bytes of a plan.
fn stations_of(bytes: &[u8], size: usize, output: &mut [u8]) -> usize
    requires { size ≤ length bytes.now }
    ensures { Stations (take size bytes.now) output.old result output.new }
{
    stations(&bytes[..size], output)
}

// The same of a plan of which `size` bytes were read, all that there are or the first 4,107: no other count of places settles the listing of
// every plan that begins with them.
pub fn stations_read(plan: &[u8; 4107], size: usize, output: &mut [u8]) -> usize
    requires { (length plan.now ≡ 4107) × (size ≤ length plan.now) }
    ensures { ReadListed plan.now size output.old result output.new }
{
    stations_of(plan, size, output)
}
