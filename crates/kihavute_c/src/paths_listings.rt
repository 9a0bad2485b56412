// The exports of kihavute_paths::listings.
ghost use Rattle.kihavute_paths.specs.Listings.{PlanListed};

// Writes the listing of a plan from the output's start, and gives its length. An output that is shorter is refused with that length, at most
// 69,632. Where it is refused, or answer is too short, the output is not touched.
#[unsafe(no_mangle)]
pub extern "C" fn kihavute_stations(input: &[u8], output: &mut [u8], answer: &mut [u64]) -> u32
    ensures { PlanListed input.now output.old answer.old result output.new answer.new }
{
    kihavute_paths::listings::kihavute_stations(input, output, answer)
}
