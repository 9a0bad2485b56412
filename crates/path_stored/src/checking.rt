// The stored path check.
ghost use Rattle.std.specs.Prelude.{◌≡◌, ◌≤◌, ◌*◌, ◌&&◌, true, eqb, length};
ghost use Rattle.table.specs.Sound.{lengths_are_sound};
ghost use Rattle.path_stored.specs.Paths.{AreF32, held};
ghost use Rattle.path_stored.specs.Stored.{most_segments, are_known, tables_are_sound, never_fall, is_stored};

use crate::parts::{fields_before, tables_before};
use crate::path_buffers::PathBuffers;
use crate::paths::StoredPath;
use table::inner::row_is_sound;
use table::lengths_are_sound;

// Whether all kinds are known. The loop goes on past one that is not, as those below.
fn are_known(kinds: &[u8]) -> bool
    ensures { result ≡ are_known kinds.now }
{
    let mut known = true;
    for &kind in kinds {
        known = known & (kind < 5);
    }
    known
}

// Whether the n tables that stand one after the other are sound.
fn tables_are_sound(tables: &[f32], n: usize) -> bool
    requires n_le_most_segments { n ≤ most_segments }
    requires tables_len { length tables.now ≡ 33 * n }
    ensures sound { result ≡ tables_are_sound tables.now n }
    ensures values { AreF32 tables.now }
{
    for j in 0..n {
        let at = 33 * j;
        let end = at + 33;
        if !row_is_sound(&tables[at..end]) {
            return false;
        }
    }
    true
}

// Whether no command number is below the one before it. The loop goes on past one that is: without a way out in its middle it is
// compiled to tests of several numbers at a time.
fn never_fall(commands: &[u32]) -> bool
    ensures { result ≡ never_fall 0 commands.now }
{
    let mut rise = true;
    let mut previous = 0u32;
    for &own in commands {
        rise = rise & (previous <= own);
        previous = own;
    }
    rise
}

// Whether there is one running length for each segment, and a lookup takes them.
fn lengths_hold(lengths: &[f32], count: usize) -> bool
    ensures sound { result ≡ (eqb (length lengths.now) count && lengths_are_sound lengths.now) }
    ensures values { AreF32 lengths.now }
{
    lengths.len() == count && lengths_are_sound(lengths)
}

// Whether five buffers hold a stored path: at most 65,536 segments of known kinds with exactly their fields and tables, one running
// length each, lengths and tables that a lookup takes, and one command number each, none below the one before it. Equal ones pass. That
// the numbers of buffers that pass are f32 values is so of all that a slice holds.
#[tactic(auto, unfolding(crate::specs::Stored::is_stored))]
pub fn check_path(path: PathBuffers) -> bool
    ensures stored { result ≡ is_stored (held path.entry) }
    ensures values { result ≡ true → AreF32 path.entry.tables.now × AreF32 path.entry.lengths.now }
{
    let count = path.kinds.len();
    if 65536 < count {
        return false;
    }
    if !are_known(path.kinds) {
        return false;
    }
    if path.fields.len() != fields_before(path.kinds, count) {
        return false;
    }
    let n = tables_before(path.kinds, count);
    if path.tables.len() != 33 * n {
        return false;
    }
    if !tables_are_sound(path.tables, n) {
        return false;
    }
    if !lengths_hold(path.lengths, count) {
        return false;
    }
    if path.commands.len() != count {
        return false;
    }
    never_fall(path.commands)
}

impl<'a> PathBuffers<'a> {
    // The same buffers as a stored path, where the check passed. A Result of it would lay its pointers where a refusal has bytes, which
    // modules for 32-bit processors must not (DECISIONS 222), so that each entry asks `check_path` and returns early.
    pub fn stored(self) -> StoredPath<'a>
        requires passed { is_stored (held self) ≡ true }
        requires values { AreF32 self.tables.now × AreF32 self.lengths.now }
        ensures { result.buffers ≡ self.entry }
    {
        StoredPath { buffers: self }
    }
}
