// Commands: a letter, and the sequence of arguments that it takes.
ghost use Rattle.strict_grammar.specs.Words.{Goes};
ghost use Rattle.strict.specs.Commands.{LetterOf, LetterAt, Reaches, Further, Arguments, Command};

use strict_argument::{Kind, Text, past_separator, past_space, read_argument};

// What a byte begins where a command is due.
#[derive(Clone, Copy)]
enum Letter {
    Moves,
    Closes,
    Takes(Kind),
    Other,
}

fn letter_of(byte: u8) -> Letter
    ensures { LetterOf byte result }
{
    match byte {
        b'M' | b'm' => Letter::Moves,
        b'Z' | b'z' => Letter::Closes,
        b'L' | b'l' | b'T' | b't' => Letter::Takes(Kind::Pair),
        b'H' | b'h' | b'V' | b'v' => Letter::Takes(Kind::Coordinate),
        b'C' | b'c' => Letter::Takes(Kind::ThreePairs),
        b'S' | b's' | b'Q' | b'q' => Letter::Takes(Kind::TwoPairs),
        b'A' | b'a' => Letter::Takes(Kind::Arc),
        _ => Letter::Other,
    }
}

// No `get`: an Option of a reference is in a form that modules for 32-bit processors must not have (DECISIONS 222).
fn letter_at(text: &[u8], at: usize) -> Letter
    ensures { LetterAt text.now at result }
{
    if at < text.len() {
        letter_of(text[at])
    } else {
        Letter::Other
    }
}

// Past all further arguments, each after a separator or none. A separator that no argument follows
// is not passed.
fn past_arguments(text: Text, at: usize, kind: Kind) -> usize
    ensures { Further text.entry.edition text.entry.bytes.now kind at result }
{
    let mut end = at;
    loop {
        let start = past_separator(text, end);
        let Some(next) = read_argument(text, start, kind) else {
            return end;
        };
        end = next;
    }
}

// White space, and a sequence of at least one argument.
fn read_arguments(text: Text, at: usize, kind: Kind) -> Option<usize>
    ensures { Reaches (Arguments text.entry.edition text.entry.bytes.now kind) (Goes text.entry.edition text.entry.bytes.now) at result }
{
    let end = read_argument(text, past_space(text, at), kind)?;
    Some(past_arguments(text, end, kind))
}

// One command. Before the first moveto no other command has begun, and none is read.
pub fn read_command(text: Text, at: usize, begun: bool) -> Option<usize>
    ensures { Reaches (Command text.entry.edition text.entry.bytes.now begun) (Goes text.entry.edition text.entry.bytes.now) at result }
{
    match letter_at(text.bytes, at) {
        Letter::Moves => read_arguments(text, at + 1, Kind::Pair),
        Letter::Closes if begun => Some(at + 1),
        Letter::Takes(kind) if begun => read_arguments(text, at + 1, kind),
        _ => None,
    }
}
