// Stored paths.
ghost use Rattle.path_stored.specs.Buffers.{before};
ghost use Rattle.c_answer.specs.Given.{Given};
ghost use Rattle.kihavute_paths.specs.StoredPaths.{check_given};

use c_answer::give_count;
use path_stored::PathBuffers;

// Whether five buffers hold a stored path: returns 0 and puts the count of its segments at the start of answer; returns 12 where they
// do not.
#[unsafe(no_mangle)]
pub extern "C" fn kihavute_check(
    kinds: &[u8],
    fields: &[f32],
    tables: &[f32],
    lengths: &[f32],
    commands: &[u32],
    answer: &mut [u64],
) -> u32
    ensures { Given (check_given (before kinds fields tables lengths commands)) answer.old result answer.new }
{
    let path = PathBuffers {
        kinds,
        fields,
        tables,
        lengths,
        commands,
    };
    give_count(path_stored::len(path), answer)
}
