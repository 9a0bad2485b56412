// The entry over a text.
ghost use Rattle.std.specs.Prelude.{◌≡◌};
ghost use Rattle.path_stored.specs.Buffers.{after, before_mut};
ghost use Rattle.path_build.specs.Answers.{measure_of};
ghost use Rattle.path_text.specs.Builds.{build_read_of, BuildFromText};

use crate::texts::{TextRefusal, fill, measure, unbuilt};
use answers::Refusal;
use path_build::inner::{Counts, room};
use path_storing::Sizes;

// What a text builds: the places needed, or its first refusal, where any of reading comes before one of building.
fn size_of(text: &[u8]) -> Result<Sizes, Refusal>
    ensures { result ≡ measure_of (build_read_of text.now) }
{
    let size = text.len();
    if 65536 < size {
        return Err(Refusal::TooLong(size));
    }
    match measure(text) {
        Ok(sizes) => Ok(sizes),
        Err(TextRefusal::Unread(refusal)) => Err(refusal),
        Err(TextRefusal::Unbuilt(refusal)) => Err(unbuilt(text, refusal)),
    }
}

// Builds the stored path of a text: a kind, a running length and the number of its command, in the list that reading gives, for each
// segment, its fields and its table, each from its buffer's start, and gives their counts. A refusal writes nothing, and what stands past
// the counted places is left as it was.
pub fn build_from_text(
    text: &[u8],
    kinds: &mut [u8],
    fields: &mut [f32],
    tables: &mut [f32],
    lengths: &mut [f32],
    commands: &mut [u32],
) -> Result<Sizes, Refusal>
    ensures { BuildFromText text.now (before_mut kinds fields tables lengths commands) result (after kinds fields tables lengths commands) }
{
    let lent = Counts {
        kinds: kinds.len(),
        fields: fields.len(),
        tables: tables.len(),
        lengths: lengths.len(),
        commands: commands.len(),
    };
    let sizes = room(size_of(text), lent)?;
    fill(text, kinds, fields, tables, lengths, commands);
    Ok(sizes)
}
