// Decimal numbers: the answers of the Rust's own reader.
use answers::{Refusal, Values};
use decimal::Read;
use replay_records::{Count, has_bits, pattern, seen, three};
use std::io;

// The bytes of a record: v and the value's pattern or r and the refusal's number, as eight
// hexadecimal digits; the count of bytes taken or the refusal's offset, and the text's length, as
// three digits each; the text, blanks up to 115 bytes, and a line's end.
const RECORD: usize = 131;

pub fn replay(reader: &mut impl io::Read, count: Count) -> io::Result<Count> {
    let mut record = [0u8; RECORD];
    let n = input::read_full(reader, &mut record)?;
    Ok(seen(count, agrees(&record[..n])))
}

// Whether a whole record holds the answer of the proved reader.
fn agrees(line: &[u8]) -> bool {
    if line.len() < RECORD {
        return false;
    }
    let due = pattern(line, 1);
    let offset = three(line, 9);
    let size = three(line, 12);
    if 115 < size {
        return false;
    }
    let to = 15 + size;
    same(decimal::number(&line[15..to], 0), line[0], due, offset)
}

fn same(read: Result<Read, Refusal>, letter: u8, due: u32, offset: usize) -> bool {
    match read {
        Ok(read) => letter == b'v' && has_bits(read.value, due) && read.end == offset,
        Err(refusal) => {
            letter == b'r' && refusal.number() == due && only(refusal.carried()) == offset
        }
    }
}

// The one value that a refusal of a number carries.
fn only(values: Values) -> usize {
    match values {
        Values::One(value) => value,
        _ => 1000,
    }
}
