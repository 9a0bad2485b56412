// The entry of the reader. A refusal writes nothing, so that a text is read into buffers of the
// reader's own, and copied where all of it is right. What does not fit there is passed twice: it is
// counted before it is stored.
ghost use Rattle.std.specs.Prelude.{◌≡◌, ◌≤◌, length};
ghost use Rattle.answers.specs.declared.refusals.Values.TheVariants.{Three};
ghost use Rattle.answers.specs.declared.refusals.Refusal.TheVariants.{NoRoom};
ghost use Rattle.svg.specs.Lists.{lent, before, after};
ghost use Rattle.svg.specs.Readings.{ReadPath, Gives};
ghost use Rattle.svg.specs.Texts.{Begun};

use crate::passes::{Counts, Stored, fill, measure_on, put_first};
use answers::{Refusal, Values};
use svg_step::{Reader, fresh};

// What is due where a list has no room.
fn no_room(counts: Counts) -> Refusal
    ensures { result ≡ NoRoom (Three counts.letters counts.numbers counts.letters) }
{
    Refusal::NoRoom(Values::Three(counts.letters, counts.numbers, counts.letters))
}

// The rest of a text of which the commands up to a state are held.
pub(crate) fn read_on(
    text: &[u8],
    reader: Reader,
    held: &[u8],
    kept: &[f32],
    marks: &[u32],
    letters: &mut [u8],
    numbers: &mut [f32],
    offsets: &mut [u32],
) -> Result<Counts, Refusal>
    requires { (length text.now ≤ 65536) × Begun text.now (lent held kept marks) reader }
    ensures { ReadPath text.now (before letters numbers offsets) result (after letters numbers offsets) }
{
    let first = held.len();
    let start = kept.len();
    let counts = measure_on(text, reader, first, start)?;
    if letters.len() < counts.letters
        || numbers.len() < counts.numbers
        || offsets.len() < counts.letters
    {
        return Err(no_room(counts));
    }
    put_first(held, letters);
    put_first(kept, numbers);
    put_first(marks, offsets);
    let _whole = fill(text, reader, first, start, letters, numbers, offsets);
    Ok(counts)
}

// Gives the commands of a text, all of which are held: a letter and an offset for each.
fn give(
    held: &[u8],
    kept: &[f32],
    marks: &[u32],
    letters: &mut [u8],
    numbers: &mut [f32],
    offsets: &mut [u32],
) -> Result<Counts, Refusal>
    ensures { Gives (lent held.entry kept.entry marks.entry) (before letters numbers offsets) result (after letters numbers offsets) }
{
    let counts = Counts {
        letters: held.len(),
        numbers: kept.len(),
    };
    if letters.len() < counts.letters
        || numbers.len() < counts.numbers
        || offsets.len() < marks.len()
    {
        return Err(no_room(counts));
    }
    put_first(held, letters);
    put_first(kept, numbers);
    put_first(marks, offsets);
    Ok(counts)
}

// Reads a text by way of three buffers, in which something else may stand before and after.
fn read_by(
    text: &[u8],
    held: &mut [u8],
    kept: &mut [f32],
    marks: &mut [u32],
    letters: &mut [u8],
    numbers: &mut [f32],
    offsets: &mut [u32],
) -> Result<Counts, Refusal>
    requires { length text.now ≤ 65536 }
    ensures { ReadPath text.now (before letters numbers offsets) result (after letters numbers offsets) }
{
    match fill(text, fresh(), 0, 0, held, kept, marks)? {
        Stored::Whole(counts) => give(
            &held[..counts.letters],
            &kept[..counts.numbers],
            &marks[..counts.letters],
            letters,
            numbers,
            offsets,
        ),
        Stored::Full {
            reader,
            letters: first,
            numbers: start,
        } => read_on(
            text,
            reader,
            &held[..first],
            &kept[..start],
            &marks[..first],
            letters,
            numbers,
            offsets,
        ),
    }
}

// Reads a text by way of buffers of its own, of so many letters and numbers.
fn read_held<const LETTERS: usize, const NUMBERS: usize>(
    text: &[u8],
    letters: &mut [u8],
    numbers: &mut [f32],
    offsets: &mut [u32],
) -> Result<Counts, Refusal>
    requires { (length text.now ≤ 65536) × (LETTERS ≤ 4096) × (NUMBERS ≤ 4096) }
    ensures { ReadPath text.now (before letters numbers offsets) result (after letters numbers offsets) }
{
    let mut held = [0u8; LETTERS];
    let mut kept = [0.0f32; NUMBERS];
    let mut marks = [0u32; LETTERS];
    read_by(
        text, &mut held, &mut kept, &mut marks, letters, numbers, offsets,
    )
}

// Reads a text into a command list: letters, numbers and for each letter the offset in the text of the
// letter that made the command, each from its buffer's start. A refusal writes nothing, and what stands
// past the counted places is left as it was.
pub fn read_path(
    text: &[u8],
    letters: &mut [u8],
    numbers: &mut [f32],
    offsets: &mut [u32],
) -> Result<Counts, Refusal>
    ensures { ReadPath text.now (before letters numbers offsets) result (after letters numbers offsets) }
{
    let size = text.len();
    if 65536 < size {
        return Err(Refusal::TooLong(size));
    }
    // A short text most likely needs few places; more room takes longer to clear.
    if size <= 2048 {
        return read_held::<256, 512>(text, letters, numbers, offsets);
    }
    read_held::<1024, 4096>(text, letters, numbers, offsets)
}
