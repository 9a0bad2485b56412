// The two passes over a text: the first counts, and measures only where it must, the second stores.
ghost use Rattle.std.specs.Prelude.{◌≡◌, ◌≤◌, length};
ghost use Rattle.svg.specs.Texts.{commands_of};
ghost use Rattle.path_stored.specs.Buffers.{after, before_mut, lent_mut};
ghost use Rattle.path_build.specs.Answers.{measure_of, Foretells, Holding, Filled};
ghost use Rattle.path_text.specs.Builds.{built_from, build_read_of, drawers_text_of, Finds};
ghost use Rattle.path_text.specs.declared.texts.TextRefusal.TheVariants.{Unbuilt};

use answers::Refusal;
use path_storing::inner::{advance, count, lay};
use path_storing::{Sizes, opening, start};
use svg_step::{fresh, read_step};

// Why a first pass finds no path.
#[derive(Clone, Copy, Debug, PartialEq, Eq)]
pub enum TextRefusal {
    // The text does not read.
    Unread(Refusal),
    // A segment is refused, where the text reads on or not.
    Unbuilt(Refusal),
}

// What a text builds, where it reads and no length need be measured to tell.
fn survey(text: &[u8]) -> Option<Sizes>
    requires { length text.now ≤ 65536 }
    ensures { Foretells (built_from (commands_of text.now)) result }
{
    let mut reader = fresh();
    let mut tally = opening();
    loop {
        match read_step(text, reader) {
            Ok(Some(step)) => {
                tally = count(tally, step.command)?;
                reader = step.next;
            }
            Ok(None) => return Some(tally.sizes),
            Err(_) => return None,
        }
    }
}

// Reads and judges segment by segment, up to the first refusal of either kind.
fn judge(text: &[u8]) -> Result<Sizes, TextRefusal>
    requires { length text.now ≤ 65536 }
    ensures { Finds text.now result }
{
    let mut reader = fresh();
    let mut site = start();
    loop {
        match read_step(text, reader) {
            Ok(Some(step)) => match advance(site, step.command) {
                Ok(further) => {
                    site = further;
                    reader = step.next;
                }
                Err(refusal) => return Err(TextRefusal::Unbuilt(refusal)),
            },
            Ok(None) => return Ok(site.sizes),
            Err(refusal) => return Err(TextRefusal::Unread(refusal)),
        }
    }
}

// What a text builds, up to the first refusal of either kind.
pub(crate) fn measure(text: &[u8]) -> Result<Sizes, TextRefusal>
    requires { length text.now ≤ 65536 }
    ensures { Finds text.now result }
{
    match survey(text) {
        Some(sizes) => Ok(sizes),
        None => judge(text),
    }
}

// Why nothing is built of a text of which a segment is refused: a refusal of reading further on comes first. It steps as the other
// passes do, since a pass of its own would lie on the stack of every call.
pub(crate) fn unbuilt(text: &[u8], refusal: Refusal) -> Refusal
    requires { (length text.now ≤ 65536) × Finds text.now (Err (Unbuilt refusal)) }
    ensures { Err result ≡ measure_of (built_from (commands_of text.now)) }
{
    let mut reader = fresh();
    loop {
        match read_step(text, reader) {
            Ok(Some(step)) => reader = step.next,
            Ok(None) => return refusal,
            Err(first) => return first,
        }
    }
}

// Stores the path of a text that reads and builds, from the start of each buffer, and numbers the commands as it reads them.
pub(crate) fn fill(
    text: &[u8],
    kinds: &mut [u8],
    fields: &mut [f32],
    tables: &mut [f32],
    lengths: &mut [f32],
    commands: &mut [u32],
)
    requires { Holding (build_read_of text.now) (lent_mut kinds fields tables lengths commands) }
    ensures { Filled (build_read_of text.now) (drawers_text_of text.now)
        (before_mut kinds fields tables lengths commands) (after kinds fields tables lengths commands) }
{
    let mut reader = fresh();
    let mut site = start();
    let mut number: u32 = 0;
    loop {
        match read_step(text, reader) {
            Ok(Some(step)) => {
                site = lay(
                    site,
                    number,
                    step.command,
                    kinds,
                    fields,
                    tables,
                    lengths,
                    commands,
                );
                reader = step.next;
                number += 1;
            }
            Ok(None) => return,
            Err(_) => return,
        }
    }
}
