// The same reading with no buffers of the reader's own, for a task with a small stack: all of a text is
// counted, and only then stored.
ghost use Rattle.svg.specs.Lists.{before, after};
ghost use Rattle.svg.specs.Readings.{ReadPath};

use crate::passes::Counts;
use crate::reading::read_on;
use answers::Refusal;
use svg_step::fresh;

// Reads a text as `read_path` does, under its promise word for word, and passes it twice.
pub fn read_lean(
    text: &[u8],
    letters: &mut [u8],
    numbers: &mut [f32],
    offsets: &mut [u32],
) -> Result<Counts, Refusal>
    ensures { ReadPath text.now (before letters numbers offsets) result (after letters numbers offsets) }
{
    let size = text.len();
    if 65536 < size {
        return Err(Refusal::TooLong(size));
    }
    let no_numbers = [0.0f32; 0];
    let no_offsets = [0u32; 0];
    read_on(
        text,
        fresh(),
        &text[..0],
        &no_numbers,
        &no_offsets,
        letters,
        numbers,
        offsets,
    )
}
