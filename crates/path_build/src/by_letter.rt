// One command of a list, stored from its letter and its numbers.
ghost use Rattle.std.specs.Prelude.{◌≡◌, ◌+◌, ◌≤◌, length, drop};
ghost use Rattle.commands.specs.Listed.{command_of};
ghost use Rattle.path_stored.specs.Buffers.{after, before_mut, lent_mut};
ghost use Rattle.path_storing.specs.Sites.{FewAt, Room, Laid};
ghost use Rattle.path_build.specs.Letters.{stride_of, drawn_at};

use commands::inner::{decode, point_at};
use path_storing::Site;
use path_storing::inner::{cubic_to, lay_any, line_to, quad_to};

// How many numbers a letter takes. An unknown one takes none.
#[tactic(auto, unfolding(crate::specs::Letters::stride_of))]
pub(crate) fn stride(letter: u8) -> usize
    ensures { result ≡ stride_of letter }
{
    match letter {
        b'M' | b'L' => 2,
        b'Q' => 4,
        b'C' => 6,
        b'A' => 7,
        _ => 0,
    }
}

// Stores what the command of a letter draws at a site, where its numbers stand from `at` on. A line, a quad and a cubic are known by
// their letters, so that no command is made of them.
pub(crate) fn lay_at(
    site: Site,
    number: u32,
    letter: u8,
    numbers: &[f32],
    at: usize,
    kinds: &mut [u8],
    fields: &mut [f32],
    tables: &mut [f32],
    lengths: &mut [f32],
    commands: &mut [u32],
) -> Site
    requires { (at + stride_of letter ≤ length numbers.now) × FewAt site
        × Room site (drawn_at site.pen (command_of letter (drop at numbers.now))) (lent_mut kinds fields tables lengths commands) }
    ensures { Laid site number (drawn_at site.pen (command_of letter (drop at numbers.now)))
        (before_mut kinds fields tables lengths commands) result (after kinds fields tables lengths commands) }
{
    match letter {
        b'L' => {
            let end = point_at(numbers, at);
            line_to(site, number, end, kinds, fields, tables, lengths, commands)
        }
        b'Q' => {
            let control = point_at(numbers, at);
            let end = point_at(numbers, at + 2);
            quad_to(
                site, number, control, end, kinds, fields, tables, lengths, commands,
            )
        }
        b'C' => {
            let control1 = point_at(numbers, at);
            let control2 = point_at(numbers, at + 2);
            let end = point_at(numbers, at + 4);
            cubic_to(
                site, number, control1, control2, end, kinds, fields, tables, lengths, commands,
            )
        }
        _ => match decode(letter, numbers, at) {
            Some(command) => {
                lay_any(
                    site, number, command, kinds, fields, tables, lengths, commands,
                )
            }
            None => site,
        },
    }
}
