// How the programs go through their lists: each block stands after the letter of its kind, and of each kind it is counted how many
// answers were replayed and how many differ.
ghost use Rattle.std.specs.Prelude.{◌≡◌};
ghost use Rattle.replay_records.specs.Counts.{none_yet, seen_as};

use std::io;
use std::io::Read;
use std::num::wrapping_add_u32;

// How many answers of a kind were replayed, and how many of them differ: modulo 2^32, which no list reaches.
#[derive(Clone, Copy)]
pub struct Count {
    pub replayed: u32,
    pub different: u32,
}

pub fn none() -> Count
    ensures { result ≡ none_yet }
{
    Count {
        replayed: 0,
        different: 0,
    }
}

// One answer more.
pub fn seen(count: Count, agrees: bool) -> Count
    ensures { result ≡ seen_as count agrees }
{
    let replayed = wrapping_add_u32(count.replayed, 1);
    let different = count.different;
    if agrees {
        Count {
            replayed,
            different,
        }
    } else {
        Count {
            replayed,
            different: wrapping_add_u32(different, 1),
        }
    }
}

// The letter of the next block's kind, and 0 past the last block.
pub fn kind(reader: &mut impl Read) -> io::Result<u8> {
    let mut letter = [0u8; 1];
    input::read_full(reader, &mut letter)?;
    Ok(letter[0])
}

// Prints the count of a kind.
pub fn tell(rt: &impl Print, kind: &[u8], count: Count) -> io::Result<()> {
    rt.write_all(kind)?;
    println!(rt;
        ": replayed {}, different {}",
        count.replayed, count.different
    )
}
