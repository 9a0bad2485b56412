// Strict reading of a text under an edition.
ghost use Rattle.kihavute.specs.StrictReading.{StrictReading};

use answers::{Values, report};

// `edition` is 1 for SVG 1.1 and 2 for SVG 2. Returns 0 and puts 1 for a yes and 0 for a no at the
// start of answer; returns 13 and puts another edition there; returns 1 and puts the length of a text
// that is too long there.
#[unsafe(no_mangle)]
pub extern "C" fn kihavute_strict(text: &[u8], edition: u32, answer: &mut [u64]) -> u32
    ensures { StrictReading edition text.now answer.old result answer.new }
{
    match strict::strict(text, edition) {
        Ok(yes) => report(0, Values::One(usize::from(yes)), answer),
        Err(refusal) => report(refusal.number(), refusal.carried(), answer),
    }
}
