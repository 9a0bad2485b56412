// The exports of kihavute_reading::reading.
ghost use Rattle.svg.specs.Lists.{before, after};
ghost use Rattle.commands.specs.Checked.{check_commands_of};
ghost use Rattle.c_answer.specs.Given.{Given};
ghost use Rattle.kihavute_reading.specs.Reading.{KeptBy, PathRead};

// Reads a text into a command list: letters, numbers and the offset of the letter that made each
// command, each from its buffer's start. Gives how many of each are stored. Where answer is too short,
// or the text is refused, no buffer is touched.
#[unsafe(no_mangle)]
pub extern "C" fn kihavute_read(
    text: &[u8],
    letters: &mut [u8],
    numbers: &mut [f32],
    offsets: &mut [u32],
    answer: &mut [u64],
) -> u32
    ensures path_read { PathRead text.now (before letters numbers offsets) answer.old result (after letters numbers offsets) answer.new }
    ensures kept_by { KeptBy text.now result (after letters numbers offsets) answer.new }
{
    kihavute_reading::reading::kihavute_read(text, letters, numbers, offsets, answer)
}

// Whether letters and numbers are a command list. Gives nothing where they are.
#[unsafe(no_mangle)]
pub extern "C" fn kihavute_check_commands(
    letters: &[u8],
    numbers: &[f32],
    answer: &mut [u64],
) -> u32
    ensures { Given (check_commands_of letters.now numbers.now) answer.old result answer.new }
{
    kihavute_reading::reading::kihavute_check_commands(letters, numbers, answer)
}
