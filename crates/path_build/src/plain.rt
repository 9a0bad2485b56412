// Plain lists: a MoveTo first, no arc, and every number near. What such a list builds is told by counting its letters, with no command
// decoded and none measured. The loops have no way out, so that the compiler lays them over lanes.
ghost use Rattle.std.specs.Prelude.{◌≡◌, ◌≤◌, length};
ghost use Rattle.path_build.specs.Lists.{given_list};
ghost use Rattle.path_build.specs.Answers.{Foretells};
ghost use Rattle.path_build.specs.Paths.{build_list_of};
ghost use Rattle.path_build.specs.Plain.{count_in, all_near};

use path_bounds::is_near;
use path_storing::Sizes;

// How often a letter occurs.
fn count_of(letters: &[u8], letter: u8) -> usize
    requires { length letters.now ≤ 65536 }
    ensures { result ≡ count_in letter letters.now }
{
    let mut count: u32 = 0;
    for &own in letters {
        count += u32::from(own == letter);
    }
    count as usize
}

// Whether every number is near. A NaN is not.
fn all_near(numbers: &[f32]) -> bool
    ensures { result ≡ all_near numbers.now }
{
    let mut near = true;
    for &number in numbers {
        near &= is_near(number);
    }
    near
}

// What a plain list builds.
pub(crate) fn foretell(letters: &[u8], numbers: &[f32]) -> Option<Sizes>
    ensures { Foretells (build_list_of (given_list letters numbers)) result }
{
    let size = letters.len();
    if size == 0 || 65536 < size || letters[0] != b'M' {
        return None;
    }
    let moves = count_of(letters, b'M');
    let lines = count_of(letters, b'L');
    let quads = count_of(letters, b'Q');
    let cubics = count_of(letters, b'C');
    let closes = count_of(letters, b'Z');
    if moves + lines + quads + cubics + closes == size
        && 2 * (moves + lines) + 4 * quads + 6 * cubics == numbers.len()
        && all_near(numbers)
    {
        return Some(Sizes {
            segments: lines + quads + cubics + closes,
            fields: 4 * (lines + closes) + 6 * quads + 8 * cubics,
            tables: 33 * (quads + cubics),
        });
    }
    None
}
