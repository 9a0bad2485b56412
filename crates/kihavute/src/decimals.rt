// One decimal number at the start of a text.
ghost use Rattle.decimal.specs.Decimal.{number_of};
ghost use Rattle.c_answer.specs.Given.{Given};
ghost use Rattle.kihavute.specs.Decimals.{read_given, number_given, NumberKeptBy};

use answers::{Refusal, Values};
use decimal::inner::quick;
use floats::bits;

// Any number at the start of a text of any length.
fn read_any(text: &[u8], answer: &mut [u64]) -> u32
    ensures { Given (read_given (number_of text.now 0)) answer.old result answer.new }
{
    match decimal::number(text, 0) {
        Ok(read) => c_answer::accept(Values::Two(bits(read.value) as usize, read.end), answer),
        Err(refusal) => c_answer::refuse(refusal, answer),
    }
}

// The same, by the quick way where that tells. In more than ten bytes most likely stands an exponent, or more digits than it takes.
fn read(text: &[u8], answer: &mut [u64]) -> u32
    ensures { Given (read_given (number_of text.now 0)) answer.old result answer.new }
{
    if text.len() <= 10 {
        let mut value = [0.0f32; 1];
        let end = quick(text, 0, false, &mut value);
        if 0 < end {
            return c_answer::accept(Values::Two(bits(value[0]) as usize, end), answer);
        }
    }
    read_any(text, answer)
}

// The bits of the number that a text starts with, and how many bytes it takes. A text of more than
// 65,536 bytes is refused.
#[unsafe(no_mangle)]
pub extern "C" fn kihavute_number(text: &[u8], answer: &mut [u64]) -> u32
    ensures given { Given (number_given text.now) answer.old result answer.new }
    ensures number_kept_by { NumberKeptBy text.now result answer.new }
{
    if 65536 < text.len() {
        return c_answer::refuse(Refusal::TooLong(text.len()), answer);
    }
    read(text, answer)
}
