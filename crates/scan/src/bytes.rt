// The classes of bytes that path data is made of.
ghost use Rattle.std.specs.Prelude.{◌≡◌};
ghost use Rattle.scan.specs.Bytes.{among, digits, signs, exponent_marks, white_space, separators, flags, number_starts};

pub fn is_digit(byte: u8) -> bool
    ensures { result ≡ among byte digits }
{
    (48 <= byte) & (byte <= 57)
}

pub fn is_sign(byte: u8) -> bool
    ensures { result ≡ among byte signs }
{
    (byte == b'+') | (byte == b'-')
}

// The e of an exponent, in either case.
pub fn is_exponent_mark(byte: u8) -> bool
    ensures { result ≡ among byte exponent_marks }
{
    (byte == b'e') | (byte == b'E')
}

// White space of strict reading, which a form feed is not.
pub fn is_white(byte: u8) -> bool
    ensures { result ≡ among byte white_space }
{
    (byte == b' ') | (byte == b'\t') | (byte == b'\r') | (byte == b'\n')
}

// A separator of permissive reading, which a form feed is.
pub fn is_separator(byte: u8) -> bool
    ensures { result ≡ among byte separators }
{
    (byte == b',')
        | (byte == b' ')
        | (byte == b'\t')
        | (byte == b'\n')
        | (byte == 12)
        | (byte == b'\r')
}

pub fn is_flag(byte: u8) -> bool
    ensures { result ≡ among byte flags }
{
    (byte == b'0') | (byte == b'1')
}

// Whether a number can start with the byte.
pub fn starts_number(byte: u8) -> bool
    ensures { result ≡ among byte number_starts }
{
    ((48 <= byte) & (byte <= 57)) | (byte == b'+') | (byte == b'-') | (byte == b'.')
}
