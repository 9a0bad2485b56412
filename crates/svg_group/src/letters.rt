// The letters of commands and what each asks for.
ghost use Rattle.std.specs.Prelude.{◌≡◌};
ghost use Rattle.svg_group.specs.Letters.{is_letter_of, meaning_of, width_of};

// What the groups of a letter are.
#[derive(Clone, Copy, Debug, PartialEq, Eq)]
pub enum Kind {
    Move,
    Line,
    Horizontal,
    Vertical,
    Cubic,
    SmoothCubic,
    Quad,
    SmoothQuad,
    Arc,
}

#[derive(Clone, Copy, Debug, PartialEq, Eq)]
pub enum Letter {
    Draws(Kind),
    Closes,
    Unknown,
}

#[tactic(auto, unfolding(crate::specs::Letters::is_letter_of))]
pub fn is_letter(byte: u8) -> bool
    ensures { result ≡ is_letter_of byte }
{
    ((65 <= byte) & (byte <= 90)) | ((97 <= byte) & (byte <= 122))
}

#[tactic(auto, unfolding(crate::specs::Letters::meaning_of, scan::specs::Bytes::among))]
pub fn meaning(letter: u8) -> Letter
    ensures { result ≡ meaning_of letter }
{
    match letter {
        b'M' | b'm' => Letter::Draws(Kind::Move),
        b'L' | b'l' => Letter::Draws(Kind::Line),
        b'H' | b'h' => Letter::Draws(Kind::Horizontal),
        b'V' | b'v' => Letter::Draws(Kind::Vertical),
        b'C' | b'c' => Letter::Draws(Kind::Cubic),
        b'S' | b's' => Letter::Draws(Kind::SmoothCubic),
        b'Q' | b'q' => Letter::Draws(Kind::Quad),
        b'T' | b't' => Letter::Draws(Kind::SmoothQuad),
        b'A' | b'a' => Letter::Draws(Kind::Arc),
        b'Z' | b'z' => Letter::Closes,
        _ => Letter::Unknown,
    }
}

// How many numbers the command of a kind's group stores.
pub fn width(kind: Kind) -> usize
    ensures { result ≡ width_of kind }
{
    match kind {
        Kind::Move | Kind::Line | Kind::Horizontal | Kind::Vertical => 2,
        Kind::Quad | Kind::SmoothQuad => 4,
        Kind::Cubic | Kind::SmoothCubic => 6,
        Kind::Arc => 7,
    }
}
