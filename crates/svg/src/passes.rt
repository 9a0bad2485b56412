// The passes over a text: one stores while there is room, the other only counts.
ghost use Rattle.std.specs.Prelude.{◌≡◌, ◌≤◌, length};
ghost use Rattle.answers.specs.Report.{written};
ghost use Rattle.svg.specs.Lists.{lent_mut, before, after};
ghost use Rattle.svg.specs.Texts.{commands_of, measure_of, Counting, Holding, Stores};

use answers::Refusal;
use commands::inner::store;
use commands::width;
use svg_step::{Pass, Reader, Stepped, pass_step, read_step};

// The places that a text's commands take in each buffer; of offsets there are as many as of letters.
#[derive(Clone, Copy, Debug, PartialEq, Eq)]
pub struct Counts {
    pub letters: usize,
    pub numbers: usize,
}

// How many letters and numbers a text stores, or its first refusal, where the commands up to a state are counted already. No number is
// converted.
pub(crate) fn measure_on(
    text: &[u8],
    reader: Reader,
    letters: usize,
    numbers: usize,
) -> Result<Counts, Refusal>
    requires { (length text.now ≤ 65536) × Counting text.now reader letters numbers }
    ensures { result ≡ measure_of (commands_of text.now) }
{
    let mut from = reader.at;
    let mut remembered = reader.letter;
    let mut placed = reader.placed;
    let mut counts = Counts { letters, numbers };
    while let Some(pass) = pass_step(text, from, remembered, placed)? {
        from = pass.next;
        remembered = pass.letter;
        placed = true;
        counts.numbers += pass.width;
        counts.letters += 1;
    }
    Ok(counts)
}

// How far a text is stored.
#[derive(Clone, Copy)]
pub enum Stored {
    // All of it, in so many places of each buffer.
    Whole(Counts),
    // The next command has no room: the state before it, and the places that are taken.
    Full {
        reader: Reader,
        letters: usize,
        numbers: usize,
    },
}

// Stores the commands of a text from a state on, past those that stand in the buffers already, while
// there is room.
pub(crate) fn fill(
    text: &[u8],
    from: Reader,
    first: usize,
    start: usize,
    letters: &mut [u8],
    numbers: &mut [f32],
    offsets: &mut [u32],
) -> Result<Stored, Refusal>
    requires { (length text.now ≤ 65536) × Holding text.now (lent_mut letters numbers offsets) (lent_mut letters numbers offsets) from first start }
    ensures { Stores text.now (before letters numbers offsets) (after letters numbers offsets) result }
{
    let mut reader = from;
    let mut letter_at = first;
    let mut at = start;
    // no `?` and no `while let`: they copy the command twice more, in other widths than it is written
    loop {
        match read_step(text, reader) {
            Err(refusal) => return Err(refusal),
            Ok(None) => {
                return Ok(Stored::Whole(Counts {
                    letters: letter_at,
                    numbers: at,
                }));
            }
            Ok(Some(Stepped { command, next })) => {
                let more = width(command);
                if letters.len() <= letter_at
                    || numbers.len() - at < more
                    || offsets.len() <= letter_at
                {
                    return Ok(Stored::Full {
                        reader,
                        letters: letter_at,
                        numbers: at,
                    });
                }
                store(letters, numbers, letter_at, at, command);
                offsets[letter_at] = next.offset as u32;
                at += more;
                letter_at += 1;
                reader = next;
            }
        }
    }
}

// Puts elements at the start of a buffer, and touches no other place.
pub(crate) fn put_first<T: Copy>(elements: &[T], out: &mut [T])
    requires { length elements.now ≤ length out.old }
    ensures { out.new ≡ written elements.now out.old }
{
    // `copy_from_slice` is a memmove, which modules for 32-bit processors must not have (DECISIONS 222).
    for k in 0..elements.len() {
        out[k] = elements[k];
    }
}
