// Stored paths built from a command list or from a text.
ghost use Rattle.path_stored.specs.Buffers.{after, before_mut};
ghost use Rattle.path_build.specs.Answers.{answer_of};
ghost use Rattle.path_build.specs.Lists.{given_list};
ghost use Rattle.path_build.specs.Paths.{lent_of, drawers_list_of, build_path_of};
ghost use Rattle.path_text.specs.Builds.{build_text_of, drawers_text_of};
ghost use Rattle.c_answer.specs.Given.{Given};
ghost use Rattle.kihavute_paths.specs.Paths.{PathBuilt};

use answers::{Refusal, Values};
use path_storing::Sizes;

// The counts of what was stored, one for each output.
fn give_sizes(built: Result<Sizes, Refusal>, answer: &mut [u64]) -> u32
    ensures { Given (answer_of built) answer.old result answer.new }
{
    match built {
        Ok(
            Sizes {
                segments,
                fields,
                tables,
            },
        ) => c_answer::accept(
            Values::Five(segments, fields, tables, segments, segments),
            answer,
        ),
        Err(refusal) => c_answer::refuse(refusal, answer),
    }
}

// Builds the stored path of a command list: kinds, fields, tables, running lengths and command numbers, each from its buffer's start.
// Gives how many places of each are stored. Where answer is too short, or the list is refused, no buffer is touched.
#[unsafe(no_mangle)]
pub extern "C" fn kihavute_build(
    letters: &[u8],
    numbers: &[f32],
    kinds: &mut [u8],
    fields: &mut [f32],
    tables: &mut [f32],
    lengths: &mut [f32],
    commands: &mut [u32],
    answer: &mut [u64],
) -> u32
    ensures { PathBuilt (build_path_of (given_list letters numbers) (lent_of (before_mut kinds fields tables lengths commands))) (drawers_list_of (given_list letters numbers))
        (before_mut kinds fields tables lengths commands) answer.old result (after kinds fields tables lengths commands) answer.new }
{
    if answer.len() < 8 {
        return 255;
    }
    let built = path_build::build_path(letters, numbers, kinds, fields, tables, lengths, commands);
    give_sizes(built, answer)
}

// The same for a text, read and built in one call.
#[unsafe(no_mangle)]
pub extern "C" fn kihavute_build_text(
    text: &[u8],
    kinds: &mut [u8],
    fields: &mut [f32],
    tables: &mut [f32],
    lengths: &mut [f32],
    commands: &mut [u32],
    answer: &mut [u64],
) -> u32
    ensures { PathBuilt (build_text_of text.now (lent_of (before_mut kinds fields tables lengths commands))) (drawers_text_of text.now)
        (before_mut kinds fields tables lengths commands) answer.old result (after kinds fields tables lengths commands) answer.new }
{
    if answer.len() < 8 {
        return 255;
    }
    let built = path_text::build_from_text(text, kinds, fields, tables, lengths, commands);
    give_sizes(built, answer)
}
