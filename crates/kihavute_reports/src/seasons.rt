// The sheet of a season of plans.
ghost use Rattle.kihavute_reports.specs.Seasons.{SeasonGiven};

use c_answer::give_count;

// Writes the sheet of plans, each after a line with its byte count, from the output's start, and gives its length in bytes, at most 1,024.
// More than 17,179,869,184 plans are refused with 13 and that number, then an output that is shorter than the sheet with 8 and the sheet's
// length. Where it is refused, or answer is too short, the output is not touched.
#[unsafe(no_mangle)]
pub extern "C" fn kihavute_season(input: &[u8], output: &mut [u8], answer: &mut [u64]) -> u32
    ensures { SeasonGiven input.now output.old answer.old result output.new answer.new }
{
    if answer.len() < 8 {
        return 255;
    }
    give_count(season_feed::sheet_of(input, output), answer)
}
