// The lookups: from a progress to a curve's raw parameter, and to a segment of a path.
ghost use Rattle.table.specs.Answered.{looked_of, spotted_of};
ghost use Rattle.c_answer.specs.Given.{Given};
ghost use Rattle.kihavute.specs.Lookups.{raw_given, spot_given};

use answers::Values;
use floats::bits;
use table::{Progress, number_of};

// The bits of the raw parameter at a progress along a curve with this table.
#[unsafe(no_mangle)]
pub extern "C" fn kihavute_raw_parameter(
    entries: &[f32],
    total: f32,
    progress: f32,
    answer: &mut [u64],
) -> u32
    ensures { Given (raw_given (looked_of entries.now total progress)) answer.old result answer.new }
{
    match table::raw_parameter_in(entries, total, Progress { value: progress }) {
        Ok(raw) => c_answer::accept(Values::One(bits(number_of(raw)) as usize), answer),
        Err(refusal) => c_answer::refuse(refusal, answer),
    }
}

// The segment at a progress along a path with these running lengths, and the bits of the progress on
// it. Without a segment nothing is given.
#[unsafe(no_mangle)]
pub extern "C" fn kihavute_spot(lengths: &[f32], progress: f32, answer: &mut [u64]) -> u32
    ensures { Given (spot_given (spotted_of lengths.now progress)) answer.old result answer.new }
{
    match table::spot(lengths, Progress { value: progress }) {
        Ok(Some(spot)) => c_answer::accept(
            Values::Two(spot.segment, bits(spot.progress.value) as usize),
            answer,
        ),
        Ok(None) => c_answer::accept(Values::Nothing, answer),
        Err(refusal) => c_answer::refuse(refusal, answer),
    }
}
