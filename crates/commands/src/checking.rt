// The check of a stored command list.
ghost use Rattle.std.specs.Prelude.{◌≡◌};
ghost use Rattle.commands.specs.Checked.{answer_of, check_commands_of};

use crate::command::width;
use crate::encoding::decode;
use answers::Refusal;

// Whether the letters and numbers are a command list of at most 65,536 commands: each letter known,
// with all its numbers, flags +0 or 1, and no number left over. The refusal is `Range` or `BadList`.
pub fn check_commands(letters: &[u8], numbers: &[f32]) -> Result<(), Refusal>
    ensures { answer_of result ≡ check_commands_of letters.now numbers.now }
{
    let count = letters.len();
    if 65536 < count {
        return Err(Refusal::Range(count));
    }
    let mut at = 0;
    for (letter_at, &letter) in letters.iter().enumerate() {
        let Some(command) = decode(letter, numbers, at) else {
            return Err(Refusal::BadList(letter_at));
        };
        at += width(command);
    }
    if at < numbers.len() {
        return Err(Refusal::BadList(count));
    }
    Ok(())
}
