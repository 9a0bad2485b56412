// The first line of a plan: how many stations it asks for.
ghost use Rattle.std.specs.Prelude.{◌≡◌};
ghost use Rattle.text_reader.specs.Plans.{first_line_of, judged, past_of};

use answers::Refusal;

// 2 to 1,000 stations, and the place past the line's LF.
#[derive(Clone, Copy, Debug, PartialEq, Eq)]
pub struct FirstLine {
    pub count: usize,
    pub next: usize,
}

// A count that is read, judged: the path starts at `next`. The refusal is `Range`, here and below.
#[tactic(auto, unfolding(crate::specs::Plans::judged))]
fn judge(count: usize, next: usize) -> Result<FirstLine, Refusal>
    ensures { result ≡ judged count next }
{
    if count < 2 || 1000 < count {
        return Err(Refusal::Range(count));
    }
    Ok(FirstLine { count, next })
}

// The line that starts at `at`: 1 to 9 digits and a LF.
pub fn line_at(text: &[u8], at: usize) -> Result<FirstLine, Refusal>
    ensures { result ≡ first_line_of text.now at }
{
    let run = decimal_digits::inner::exponent(text, at);
    let end = run.at;
    let size = run.size;
    if end <= at {
        return Err(Refusal::Range(0));
    }
    if 9 < end - at {
        return Err(Refusal::Range(0));
    }
    if scan::byte_at(text, end) == b'\n' {
        return judge(size as usize, end + 1);
    }
    Err(Refusal::Range(0))
}

// Where a reader that has read a line at `at` stands: past the line, or where it was if the line is refused.
#[tactic(auto, unfolding(crate::specs::Plans::past_of))]
pub fn past(line: Result<FirstLine, Refusal>, at: usize) -> usize
    ensures { result ≡ past_of line at }
{
    match line {
        Ok(line) => line.next,
        Err(_) => at,
    }
}
