// The two passes over a command list: the first counts, and measures only where it must, the second stores.
ghost use Rattle.std.specs.Prelude.{◌≡◌};
ghost use Rattle.path_stored.specs.Buffers.{after, before_mut, lent_mut};
ghost use Rattle.path_build.specs.Lists.{lent_list, given_list, WellFormed};
ghost use Rattle.path_build.specs.Answers.{measure_of, Foretells, Holding, Filled};
ghost use Rattle.path_build.specs.Paths.{build_list_of, drawers_list_of};

use crate::by_letter::{lay_at, stride};
use crate::plain::foretell;
use answers::Refusal;
use commands::inner::decode;
use commands::{check_commands, width};
use path_storing::inner::{advance, count};
use path_storing::{Sizes, opening, start};

// What a well-formed list builds, where no length need be measured to tell.
fn survey(letters: &[u8], numbers: &[f32]) -> Option<Sizes>
    requires { WellFormed (lent_list letters numbers) }
    ensures { Foretells (build_list_of (given_list letters numbers)) result }
{
    let mut tally = opening();
    let mut at: usize = 0;
    for &letter in letters {
        let command = decode(letter, numbers, at)?;
        tally = count(tally, command)?;
        at += width(command);
    }
    Some(tally.sizes)
}

// The same with every length measured: the places needed, or the first refusal.
fn judge(letters: &[u8], numbers: &[f32]) -> Result<Sizes, Refusal>
    requires { WellFormed (lent_list letters numbers) }
    ensures { result ≡ measure_of (build_list_of (given_list letters numbers)) }
{
    let mut site = start();
    let mut at: usize = 0;
    for (letter_at, &letter) in letters.iter().enumerate() {
        let Some(command) = decode(letter, numbers, at) else {
            return Err(Refusal::BadList(letter_at));
        };
        site = advance(site, command)?;
        at += width(command);
    }
    Ok(site.sizes)
}

// What a well-formed list builds: the places needed, or its first refusal.
fn measure(letters: &[u8], numbers: &[f32]) -> Result<Sizes, Refusal>
    requires { WellFormed (lent_list letters numbers) }
    ensures { result ≡ measure_of (build_list_of (given_list letters numbers)) }
{
    match survey(letters, numbers) {
        Some(sizes) => Ok(sizes),
        None => judge(letters, numbers),
    }
}

// The same of any list. A plain one is counted by its letters; any other is checked before it is measured.
pub(crate) fn sized(letters: &[u8], numbers: &[f32]) -> Result<Sizes, Refusal>
    ensures { result ≡ measure_of (build_list_of (given_list letters numbers)) }
{
    if let Some(sizes) = foretell(letters, numbers) {
        return Ok(sizes);
    }
    check_commands(letters, numbers)?;
    measure(letters, numbers)
}

// Stores the path of a list that builds, from the start of each buffer. A command's number is its letter's index.
pub(crate) fn fill(
    letters: &[u8],
    numbers: &[f32],
    kinds: &mut [u8],
    fields: &mut [f32],
    tables: &mut [f32],
    lengths: &mut [f32],
    commands: &mut [u32],
)
    requires { Holding (build_list_of (lent_list letters numbers)) (lent_mut kinds fields tables lengths commands) }
    ensures { Filled (build_list_of (given_list letters numbers)) (drawers_list_of (given_list letters numbers))
        (before_mut kinds fields tables lengths commands) (after kinds fields tables lengths commands) }
{
    let mut site = start();
    let mut at: usize = 0;
    for (letter_at, &letter) in letters.iter().enumerate() {
        let number = letter_at as u32;
        site = lay_at(
            site, number, letter, numbers, at, kinds, fields, tables, lengths, commands,
        );
        at += stride(letter);
    }
}
