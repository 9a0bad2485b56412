// A whole text against the grammar of an edition.
ghost use Rattle.std.specs.Prelude.{◌≡◌, true};
ghost use Rattle.strict_grammar.specs.Grammar.{Matches};
ghost use Rattle.strict.specs.Commands.{alone_of};
ghost use Rattle.strict.specs.Verdicts.{Judged, JudgedBy, answer_of};

use crate::commands::read_command;
use answers::Refusal;
use strict_argument::{Text, past_gap, past_space};
use strict_grammar::Edition;

// Whether nothing may follow the first moveto: in SVG 2, where white space stands before it.
fn stands_alone(white: usize, edition: Edition) -> bool
    ensures { result ≡ alone_of edition white }
{
    match edition {
        Edition::Svg11 => false,
        Edition::Svg2 => 0 < white,
    }
}

// Whether the whole text is a path of the grammar.
fn matches(text: Text) -> bool
    ensures { (result ≡ true → Matches text.entry.edition text.entry.bytes.now) × (Matches text.entry.edition text.entry.bytes.now → result ≡ true) }
{
    let mut at = past_space(text, 0);
    let alone = stands_alone(at, text.edition);
    let mut begun = false;
    while at < text.bytes.len() {
        if alone & begun {
            return false;
        }
        let Some(end) = read_command(text, at, begun) else {
            return false;
        };
        at = past_gap(text, end);
        begun = true;
    }
    at == text.bytes.len()
}

fn judge(text: Text) -> Result<bool, Refusal>
    ensures { Judged text.entry.edition text.entry.bytes.now (answer_of result) }
{
    let length = text.bytes.len();
    if 65536 < length {
        return Err(Refusal::TooLong(length));
    }
    Ok(matches(text))
}

// Strict reading of a text of any bytes under an edition, 1 for SVG 1.1 and 2 for SVG 2: whether the
// text is a path of its grammar. Another number is refused with itself; then a text of more than 65,536 bytes with its length.
pub fn strict(text: &[u8], edition: u32) -> Result<bool, Refusal>
    ensures { JudgedBy edition text.now (answer_of result) }
{
    let edition = match edition {
        1 => Edition::Svg11,
        2 => Edition::Svg2,
        _ => return Err(Refusal::Range(edition as usize)),
    };
    judge(Text {
        bytes: text,
        edition,
    })
}
