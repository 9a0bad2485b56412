// Whether the lent buffers have the places that a path needs.
ghost use Rattle.std.specs.Prelude.{◌≡◌};
ghost use Rattle.path_build.specs.Answers.{is_short, building_of};

use answers::{Refusal, Values};
use path_storing::Sizes;

// Five counts of places, of kinds, fields, tables, lengths and commands.
#[derive(Clone, Copy, Debug, PartialEq, Eq)]
pub struct Counts {
    pub kinds: usize,
    pub fields: usize,
    pub tables: usize,
    pub lengths: usize,
    pub commands: usize,
}

// Whether some buffer has fewer places than are needed.
fn is_short(needed: Counts, lent: Counts) -> bool
    ensures { result ≡ is_short needed lent }
{
    (lent.kinds < needed.kinds)
        | (lent.fields < needed.fields)
        | (lent.tables < needed.tables)
        | (lent.lengths < needed.lengths)
        | (lent.commands < needed.commands)
}

// What building answers where the buffers have these places: the counts of a path that has room in them, or why none is stored.
pub fn room(sizes: Result<Sizes, Refusal>, lent: Counts) -> Result<Sizes, Refusal>
    ensures { result ≡ building_of sizes lent }
{
    let counted = sizes?;
    let Sizes {
        segments,
        fields,
        tables,
    } = counted;
    let needed = Counts {
        kinds: segments,
        fields,
        tables,
        lengths: segments,
        commands: segments,
    };
    if is_short(needed, lent) {
        return Err(Refusal::NoRoom(Values::Five(segments, fields, tables, segments, segments)));
    }
    Ok(counted)
}
