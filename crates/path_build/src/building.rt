// The entry over a command list.
ghost use Rattle.path_stored.specs.Buffers.{after, before_mut};
ghost use Rattle.path_build.specs.Lists.{given_list};
ghost use Rattle.path_build.specs.Paths.{BuildPath};

use crate::passes::{fill, sized};
use crate::room::{Counts, room};
use answers::Refusal;
use path_storing::Sizes;

// Builds the stored path of a command list: a kind, a running length and the number of its command for each segment, its fields and its
// table, each from its buffer's start, and gives their counts. A refusal writes nothing, and what stands past the counted places is left
// as it was. Within its callers it takes less stack (tests/c/stack.c).
#[inline(always)]
pub fn build_path(
    letters: &[u8],
    numbers: &[f32],
    kinds: &mut [u8],
    fields: &mut [f32],
    tables: &mut [f32],
    lengths: &mut [f32],
    commands: &mut [u32],
) -> Result<Sizes, Refusal>
    ensures { BuildPath (given_list letters numbers) (before_mut kinds fields tables lengths commands) result (after kinds fields tables lengths commands) }
{
    let lent = Counts {
        kinds: kinds.len(),
        fields: fields.len(),
        tables: tables.len(),
        lengths: lengths.len(),
        commands: commands.len(),
    };
    let sizes = room(sized(letters, numbers), lent)?;
    fill(letters, numbers, kinds, fields, tables, lengths, commands);
    Ok(sizes)
}
