// Strict reading: the verdicts of a general parser.
use answers::Refusal;
use replay_records::{Count, seen, two};
use std::io;
use std::io::Read;

// The bytes of a record: the edition's number, y or n, the text's length as two digits, the text,
// which has at most 59 bytes, blanks up to 59, and a line's end.
const RECORD: usize = 64;

pub fn replay(reader: &mut impl Read, count: Count) -> io::Result<Count> {
    let mut record = [0u8; RECORD];
    let n = input::read_full(reader, &mut record)?;
    Ok(seen(count, agrees(&record[..n])))
}

// Whether a whole record holds the verdict of strict reading.
fn agrees(line: &[u8]) -> bool {
    if line.len() < RECORD {
        return false;
    }
    let edition = numbered(line[0]);
    let size = two(line, 2);
    if 59 < size {
        return false;
    }
    let to = 4 + size;
    letter(strict::strict(&line[4..to], edition)) == line[1]
}

// The number that a digit stands for, of another byte 0.
fn numbered(digit: u8) -> u32 {
    match digit {
        b'1' => 1,
        b'2' => 2,
        _ => 0,
    }
}

fn letter(verdict: Result<bool, Refusal>) -> u8 {
    match verdict {
        Ok(true) => b'y',
        Ok(false) => b'n',
        Err(_) => b'r',
    }
}
