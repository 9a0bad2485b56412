// The exports of kihavute_reading::lean.
ghost use Rattle.svg.specs.Lists.{before, after};
ghost use Rattle.kihavute_reading.specs.Reading.{KeptBy, PathRead};

// Reads a text into a command list as `kihavute_read` does, under its promise word for word, with no
// buffers of its own.
#[unsafe(no_mangle)]
pub extern "C" fn kihavute_read_lean(
    text: &[u8],
    letters: &mut [u8],
    numbers: &mut [f32],
    offsets: &mut [u32],
    answer: &mut [u64],
) -> u32
    ensures path_read { PathRead text.now (before letters numbers offsets) answer.old result (after letters numbers offsets) answer.new }
    ensures kept_by { KeptBy text.now result (after letters numbers offsets) answer.new }
{
    kihavute_reading::lean::kihavute_read_lean(text, letters, numbers, offsets, answer)
}
