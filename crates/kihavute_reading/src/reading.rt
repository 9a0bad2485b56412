// The permissive reader, and the check of a stored command list.
ghost use Rattle.svg.specs.Lists.{before, after};
ghost use Rattle.svg.specs.Readings.{answer_of};
ghost use Rattle.commands.specs.Checked.{check_commands_of};
ghost use Rattle.c_answer.specs.Given.{Given};
ghost use Rattle.kihavute_reading.specs.Reading.{KeptBy, PathRead};

use answers::{Refusal, Values};
use svg::Counts;

// The counts of what was stored.
pub(crate) fn give_reading(read: Result<Counts, Refusal>, answer: &mut [u64]) -> u32
    ensures { Given (answer_of read) answer.old result answer.new }
{
    match read {
        Ok(counts) => c_answer::accept(
            Values::Three(counts.letters, counts.numbers, counts.letters),
            answer,
        ),
        Err(refusal) => c_answer::refuse(refusal, answer),
    }
}

// Reads a text into a command list: letters, numbers and the offset of the letter that made each
// command, each from its buffer's start. Gives how many of each are stored. Where answer is too short,
// or the text is refused, no buffer is touched.
#[unsafe(no_mangle)]
pub extern "C" fn kihavute_read(
    text: &[u8],
    letters: &mut [u8],
    numbers: &mut [f32],
    offsets: &mut [u32],
    answer: &mut [u64],
) -> u32
    ensures path_read { PathRead text.now (before letters numbers offsets) answer.old result (after letters numbers offsets) answer.new }
    ensures kept_by { KeptBy text.now result (after letters numbers offsets) answer.new }
{
    if answer.len() < 8 {
        return 255;
    }
    let reading = svg::read_path(text, letters, numbers, offsets);
    give_reading(reading, answer)
}

// Whether letters and numbers are a command list. Gives nothing where they are.
#[unsafe(no_mangle)]
pub extern "C" fn kihavute_check_commands(
    letters: &[u8],
    numbers: &[f32],
    answer: &mut [u64],
) -> u32
    ensures { Given (check_commands_of letters.now numbers.now) answer.old result answer.new }
{
    match commands::check_commands(letters, numbers) {
        Ok(()) => c_answer::accept(Values::Nothing, answer),
        Err(refusal) => c_answer::refuse(refusal, answer),
    }
}
