// The exports of kihavute::decimals.
ghost use Rattle.c_answer.specs.Given.{Given};
ghost use Rattle.kihavute.specs.Decimals.{number_given, NumberKeptBy};

// The bits of the number that a text starts with, and how many bytes it takes. A text of more than
// 65,536 bytes is refused.
#[unsafe(no_mangle)]
pub extern "C" fn kihavute_number(text: &[u8], answer: &mut [u64]) -> u32
    ensures given { Given (number_given text.now) answer.old result answer.new }
    ensures number_kept_by { NumberKeptBy text.now result answer.new }
{
    kihavute::decimals::kihavute_number(text, answer)
}
