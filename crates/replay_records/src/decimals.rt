// Numbers of one, two or three decimal digits.
ghost use Rattle.std.specs.Prelude.{◌≡◌, ◌+◌, ◌<◌, ◌≤◌, length};
ghost use Rattle.replay_records.specs.Decimals.{decimal_of, one_of, two_of, three_of};

// What a digit stands for, and 9 for any other byte.
fn decimal(byte: u8) -> usize
    ensures value { result ≡ decimal_of byte }
    ensures upper_bound { result < 10 }
{
    if byte < b'0' {
        return 9;
    }
    if byte <= b'9' {
        (byte - b'0') as usize
    } else {
        9
    }
}

// The number that the digit at this offset stands for.
pub fn one(text: &[u8], at: usize) -> usize
    requires { at < length text.now }
    ensures value { result ≡ one_of text.now at }
    ensures upper_bound { result < 10 }
{
    decimal(text[at])
}

// The number that the two digits at this offset stand for.
pub fn two(text: &[u8], at: usize) -> usize
    requires { at + 2 ≤ length text.now }
    ensures value { result ≡ two_of text.now at }
    ensures upper_bound { result < 100 }
{
    one(text, at) * 10 + one(text, at + 1)
}

// The number that the three digits at this offset stand for.
pub fn three(text: &[u8], at: usize) -> usize
    requires { at + 3 ≤ length text.now }
    ensures value { result ≡ three_of text.now at }
    ensures upper_bound { result < 1000 }
{
    two(text, at) * 10 + one(text, at + 2)
}
