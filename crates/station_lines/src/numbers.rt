// Bytes, words and numbers at a place of a buffer. Each function returns the place past what it put. A byte past the buffer's end is not
// stored but counted, so that a listing's length is found without room for it; no place is past 69,632.
ghost use Rattle.std.specs.Prelude.{◌+◌, ◌≤◌, ◌<◌, ◌≡◌, [], ◌∷◌, length};
ghost use Rattle.station_lines.specs.Numbers.{hex_digit, hex_digits, decimal_of, bits_field, number_field};
ghost use Rattle.station_lines.specs.Put.{Put, PutWithin};

pub(crate) fn put_byte(out: &mut [u8], at: usize, byte: u8) -> usize
    requires { at < 69632 }
    ensures { Put (byte ∷ []) at out.old out.new result }
{
    if out.len() <= at {
        return at + 1;
    }
    out[at] = byte;
    at + 1
}

pub(crate) fn put_word(out: &mut [u8], at: usize, word: &[u8]) -> usize
    requires { at + length word.now ≤ 69632 }
    ensures { Put word.now at out.old out.new result }
{
    let mut past = at;
    for &byte in word {
        past = put_byte(out, past, byte);
    }
    past
}

// A digit of a number to the base 16, in upper case.
fn hex_digit(value: u32) -> u8
    requires { value < 16 }
    ensures { result ≡ hex_digit value }
{
    if value < 10 {
        return (48 + value) as u8;
    }
    (55 + value) as u8
}

// The last `count` digits of a number to the base 16.
fn put_hex(out: &mut [u8], at: usize, count: usize, value: u32) -> usize
    requires { at + count ≤ 69632 }
    ensures { Put (hex_digits count value) at out.old out.new result }
{
    if count == 0 {
        return at;
    }
    let past = put_hex(out, at, count - 1, value / 16);
    put_byte(out, past, hex_digit(value % 16))
}

// A number to the base 10.
fn put_decimal(out: &mut [u8], at: usize, value: usize) -> usize
    requires { at + length (decimal_of value) ≤ 69632 }
    ensures { Put (decimal_of value) at out.old out.new result }
{
    if value < 10 {
        return put_byte(out, at, (48 + value) as u8);
    }
    let past = put_decimal(out, at, value / 10);
    put_byte(out, past, (48 + value % 10) as u8)
}

// A number below 1,000 to the base 10.
pub(crate) fn put_small(out: &mut [u8], at: usize, value: usize) -> usize
    requires { (value < 1000) × (at + 3 ≤ 69632) }
    ensures { PutWithin 3 (decimal_of value) at out.old out.new result }
{
    put_decimal(out, at, value)
}

// A space and a number below 10,000 to the base 10: an offset in a plan's path is one.
pub(crate) fn put_offset(out: &mut [u8], at: usize, value: usize) -> usize
    requires { (value < 10000) × (at + 5 ≤ 69632) }
    ensures { PutWithin 5 (number_field value) at out.old out.new result }
{
    let past_space = put_byte(out, at, b' ');
    put_decimal(out, past_space, value)
}

// A number to the base 10, of at most 20 digits.
pub(crate) fn put_whole(out: &mut [u8], at: usize, value: usize) -> usize
    requires { at + 20 ≤ 69632 }
    ensures { PutWithin 20 (decimal_of value) at out.old out.new result }
{
    put_decimal(out, at, value)
}

// A space and a number to the base 10.
pub(crate) fn put_number(out: &mut [u8], at: usize, value: usize) -> usize
    requires { at + 21 ≤ 69632 }
    ensures { PutWithin 21 (number_field value) at out.old out.new result }
{
    let past_space = put_byte(out, at, b' ');
    put_decimal(out, past_space, value)
}

// A space and the bits of a number, in eight digits to the base 16.
pub(crate) fn put_bits(out: &mut [u8], at: usize, value: f32) -> usize
    requires { at + 9 ≤ 69632 }
    ensures { PutWithin 9 (bits_field value) at out.old out.new result }
{
    let past_space = put_byte(out, at, b' ');
    put_hex(out, past_space, 8, floats::bits(value))
}
