// The path of a plan: its text starts past the first line.
ghost use Rattle.std.specs.Prelude.{◌≡◌};
ghost use Rattle.text_reader.specs.Plans.{step_of};

use answers::Refusal;
use svg_step::{Reader, Stepped, read_step};

// The next command of the path whose text starts at `at`, from a state on whose places count from there.
pub fn step_at(text: &[u8], at: usize, state: Reader) -> Result<Option<Stepped>, Refusal>
    ensures { result ≡ step_of text.now at state }
{
    if at <= text.len() {
        return read_step(&text[at..], state);
    }
    let end = text.len();
    read_step(&text[end..], state)
}
