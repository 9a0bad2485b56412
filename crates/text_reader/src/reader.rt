// The text reader: a lent text and a place in it.
ghost use Rattle.std.specs.Prelude.{◌≡◌};
ghost use Rattle.text_reader.specs.Plans.{first_line_of, step_of};

use crate::line::{FirstLine, line_at};
use crate::steps::step_at;
use answers::Refusal;
use svg_step::{Reader, Stepped};

#[derive(Clone, Copy)]
pub struct TextReader<'a> {
    pub text: &'a [u8],
    pub at: usize,
}

// A reader at a place of a text.
pub fn reader_at<'a>(text: &'a [u8], at: usize) -> TextReader<'a>
    ensures { (result.text ≡ text.entry) × (result.at ≡ at) }
{
    TextReader { text, at }
}

impl<'a> TextReader<'a> {
    // The first line, which starts at the reader's place.
    pub fn line(self) -> Result<FirstLine, Refusal>
        ensures { result ≡ first_line_of self.entry.text.now self.entry.at }
    {
        line_at(self.text, self.at)
    }

    // One step of the path whose text starts at the reader's place.
    pub fn step(self, state: Reader) -> Result<Option<Stepped>, Refusal>
        ensures { result ≡ step_of self.entry.text.now self.entry.at state }
    {
        step_at(self.text, self.at, state)
    }

    // The reader moves to another place of its text.
    pub fn moved(self, at: usize) -> TextReader<'a>
        ensures { (result.text ≡ self.entry.text) × (result.at ≡ at) }
    {
        TextReader {
            text: self.text,
            at,
        }
    }
}

// The first line of a plan. This and the next make the reader themselves, so that no caller has to
// keep one.
pub fn first_line(text: &[u8]) -> Result<FirstLine, Refusal>
    ensures { result ≡ first_line_of text.now 0 }
{
    reader_at(text, 0).line()
}

// One step of the path of a plan, whose text starts at `at`.
pub fn path_step(text: &[u8], at: usize, state: Reader) -> Result<Option<Stepped>, Refusal>
    ensures { result ≡ step_of text.now at state }
{
    reader_at(text, at).step(state)
}
