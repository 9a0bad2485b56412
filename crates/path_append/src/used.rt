// The path in use: the first `count` segments of five buffers. The caller counts them, C too, since what it lends has room after them.
ghost use Rattle.std.specs.Prelude.{◌≡◌, ◌≤◌, length};
ghost use Rattle.path_stored.specs.Paths.{held};
ghost use Rattle.path_stored.specs.Stored.{most_segments};
ghost use Rattle.path_append.specs.Appending.{numbers_used, tables_used, in_use, number_before, may_follow};

use path_stored::inner::{fields_before, tables_before};
use path_stored::{PathBuffers, check_path};

// How many numbers the first `count` segments have.
pub(crate) fn numbers_used(kinds: &[u8], count: usize) -> usize
    requires count_in_bounds { count ≤ length kinds.now }
    requires count_le_most_segments { count ≤ most_segments }
    ensures { result ≡ numbers_used kinds.now count }
{
    fields_before(&kinds[..count], count)
}

// How many places their tables take.
pub(crate) fn tables_used(kinds: &[u8], count: usize) -> usize
    requires count_in_bounds { count ≤ length kinds.now }
    requires count_le_most_segments { count ≤ most_segments }
    ensures { result ≡ tables_used kinds.now count }
{
    33 * tables_before(&kinds[..count], count)
}

// Whether the first `count` segments are a stored path: their numbers, tables, running lengths and command numbers stand at the start of
// each buffer.
fn is_in_use(path: PathBuffers, count: usize) -> bool
    ensures { result ≡ in_use (held path.entry) count }
{
    if path.kinds.len() < count {
        return false;
    }
    if 65536 < count {
        return false;
    }
    if path.lengths.len() < count {
        return false;
    }
    if path.commands.len() < count {
        return false;
    }
    let n = numbers_used(path.kinds, count);
    if path.fields.len() < n {
        return false;
    }
    let m = tables_used(path.kinds, count);
    if path.tables.len() < m {
        return false;
    }
    check_path(PathBuffers {
        kinds: &path.kinds[..count],
        fields: &path.fields[..n],
        tables: &path.tables[..m],
        lengths: &path.lengths[..count],
        commands: &path.commands[..count],
    })
}

// The last command number of the first `count`, or 0 where there is none.
fn number_before(commands: &[u32], count: usize) -> u32
    requires { count ≤ length commands.now }
    ensures { result ≡ number_before commands.now count }
{
    if count == 0 {
        return 0;
    }
    commands[count - 1]
}

// Whether a segment of the command with this number may stand after the first `count`: they are a stored path, and their last number is
// not above it.
#[tactic(auto, unfolding(crate::specs::Appending::may_follow))]
pub(crate) fn may_follow(path: PathBuffers, count: usize, command: u32) -> bool
    ensures { result ≡ may_follow (held path.entry) count command }
{
    is_in_use(path, count) && number_before(path.commands, count) <= command
}
