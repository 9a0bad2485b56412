// The fields and the tables of at most 16 segments of a stored path, from two words of eight kinds and without a branch: a walk over so
// few kinds costs more by wrong guesses of where it ends than by its steps.
ghost use Rattle.std.specs.Prelude.{◌≡◌, ◌-◌, ◌≤◌, ◌<◌};
ghost use Rattle.path_segment.specs.Segments.{width_of, tables_of};
ghost use Rattle.path_stored.specs.Counts.{Adds};
ghost use Rattle.path_stored.specs.Near.{Eight, LastFew, Near, WordBefore, itself, laid, more_fields};

// The same number, and that it is a byte, which the sums of lanes rest on: `From` would say the first alone.
fn wide(kind: u8) -> u64
    ensures { (result ≡ kind) × (result < 256) }
{
    kind as u64
}

// The eight kinds before a segment: one load in the compiled code.
fn word_before(kinds: &[u8], end: usize) -> u64
    requires { WordBefore kinds.now end }
    ensures { result ≡ laid itself kinds.now (end - 8) 8 }
{
    let at = end - 8;
    wide(kinds[at])
        + wide(kinds[at + 1]) * 256
        + wide(kinds[at + 2]) * 65536
        + wide(kinds[at + 3]) * 16777216
        + wide(kinds[at + 4]) * 4294967296
        + wide(kinds[at + 5]) * 1099511627776
        + wide(kinds[at + 6]) * 281474976710656
        + wide(kinds[at + 7]) * 72057594037927936
}

// The last few of them, by two shifts, as none by 64 is one.
fn last_few(kinds: &[u8], end: usize, few: usize) -> u64
    requires { LastFew kinds.now end few }
    ensures { result ≡ laid itself kinds.now (end - few) few }
{
    let down = 4 * (8 - few);
    (word_before(kinds, end) >> down) >> down
}

// In each lane 1 for a kind with a table: 3 * kind + 5 is 5, 8, 11, 14 or 17, of which the middle three have the binary digit of 8.
fn tables_of_last(kinds: &[u8], end: usize, few: usize) -> u64
    requires { LastFew kinds.now end few }
    ensures { result ≡ laid tables_of kinds.now (end - few) few }
{
    ((3 * last_few(kinds, end, few) + 0x0505_0505_0505_0505) >> 3) & 0x0101_0101_0101_0101
}

// In each lane the fields that a kind has above 4: 2 * kind, with 1 more from 3 on, where kind + 5 has the binary digit of 8, and 2 fewer
// from 4 on, where kind + 4 has it.
fn fields_of_last(kinds: &[u8], end: usize, few: usize) -> u64
    requires { LastFew kinds.now end few }
    ensures { result ≡ laid more_fields kinds.now (end - few) few }
{
    let word = last_few(kinds, end, few);
    let from3 = ((word + 0x0505_0505_0505_0505) >> 3) & 0x0101_0101_0101_0101;
    let from4 = ((word + 0x0404_0404_0404_0404) >> 3) & 0x0101_0101_0101_0101;
    2 * word + from3 - 2 * from4
}

// So many, or 8.
fn at_most_eight(few: usize) -> usize
    ensures { Eight few result }
{
    if few < 8 { few } else { 8 }
}

// How many tables the segments from one on to before another have. The lanes of a number add up to what is left of it by 255.
pub fn tables_near(kinds: &[u8], from: usize, to: usize) -> usize
    requires { Near kinds.now from to }
    ensures { Adds tables_of kinds.now from to result }
{
    let few = to - from;
    let last = at_most_eight(few);
    let high = tables_of_last(kinds, to, last);
    let low = tables_of_last(kinds, to - 8, few - last);
    ((high + low) % 255) as usize
}

// How many fields they have.
pub fn fields_near(kinds: &[u8], from: usize, to: usize) -> usize
    requires { Near kinds.now from to }
    ensures { Adds width_of kinds.now from to result }
{
    let few = to - from;
    let last = at_most_eight(few);
    let high = fields_of_last(kinds, to, last);
    let low = fields_of_last(kinds, to - 8, few - last);
    4 * few + ((high + low) % 255) as usize
}
