// The exports of kihavute_reports::checks.
ghost use Rattle.kihavute_reports.specs.Checks.{CheckGiven};

// Holds a listing to the one that the station tool writes for the same plan, which is left at the output's start. Gives 0 where its lines are
// the same, else the number, from 1, of the first that is wrong, missing or extra. An output that is shorter than our listing is refused
// with its length, at most 69,632. Where it is refused, or answer is too short, the output is not touched.
#[unsafe(no_mangle)]
pub extern "C" fn kihavute_check_listing(
    plan: &[u8],
    listing: &[u8],
    output: &mut [u8],
    answer: &mut [u64],
) -> u32
    ensures { CheckGiven plan.now listing.now output.old answer.old result output.new answer.new }
{
    kihavute_reports::checks::kihavute_check_listing(plan, listing, output, answer)
}
