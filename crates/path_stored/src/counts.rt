// The fields and the tables of a part of a path. They are counted in bytes, 128 kinds at a time and without a branch, which is
// compiled to counts of sixteen kinds at once.
ghost use Rattle.std.specs.Prelude.{◌≡◌, ◌<◌};
ghost use Rattle.path_segment.specs.Segments.{width_of, tables_of};
ghost use Rattle.path_stored.specs.Counts.{Adds, ShortSpan, ShortStep, Span, one_from};

use path_segment::has_table;

// The same number.
fn wide(x: u8) -> usize
    ensures { result ≡ x }
{
    x as usize
}

// 1 for a kind from `least` on.
fn one_from(least: u8, kind: u8) -> u8
    ensures { result ≡ one_from least kind }
{
    if least <= kind { 1 } else { 0 }
}

// 1 for a kind with a table.
fn one_table(kind: u8) -> u8
    ensures { result ≡ tables_of kind }
{
    if has_table(kind) { 1 } else { 0 }
}

// Where the next 128 segments end, or all that are left.
fn short_end(at: usize, to: usize) -> usize
    requires { at < to }
    ensures { ShortStep at to result }
{
    if to - at <= 128 { to } else { at + 128 }
}

// Each segment has 4 fields, one of a kind from 1 on has 2 more, from 2 on 2 more, and from 3 on 3 more. Unknown kinds, those from 5
// on, have none of these 11.
fn fields_of_few(kinds: &[u8], from: usize, to: usize) -> usize
    requires { ShortSpan kinds.now from to }
    ensures { Adds width_of kinds.now from to result }
{
    let mut from1 = 0u8;
    let mut from2 = 0u8;
    let mut from3 = 0u8;
    let mut from5 = 0u8;
    for j in from..to {
        let kind = kinds[j];
        from1 += one_from(1, kind);
        from2 += one_from(2, kind);
        from3 += one_from(3, kind);
        from5 += one_from(5, kind);
    }
    let most = 4 * (to - from) + 2 * wide(from1) + 2 * wide(from2) + 3 * wide(from3);
    most - 11 * wide(from5)
}

fn tables_of_few(kinds: &[u8], from: usize, to: usize) -> usize
    requires { ShortSpan kinds.now from to }
    ensures { Adds tables_of kinds.now from to result }
{
    let mut sum = 0u8;
    for j in from..to {
        sum += one_table(kinds[j]);
    }
    wide(sum)
}

// How many fields the segments from one on to before another have. No `chunks`: an Option of a slice is in a form that modules for 32-bit
// processors must not have (DECISIONS 222). `tables_between` differs in what it counts; one function over that would have to ask of it
// what a piece may be and how much it may have.
pub fn fields_between(kinds: &[u8], from: usize, to: usize) -> usize
    requires { Span kinds.now from to }
    ensures { Adds width_of kinds.now from to result }
{
    let mut sum = 0usize;
    let mut at = from;
    while at < to {
        let end = short_end(at, to);
        sum += fields_of_few(kinds, at, end);
        at = end;
    }
    sum
}

// How many tables they have.
pub fn tables_between(kinds: &[u8], from: usize, to: usize) -> usize
    requires { Span kinds.now from to }
    ensures { Adds tables_of kinds.now from to result }
{
    let mut sum = 0usize;
    let mut at = from;
    while at < to {
        let end = short_end(at, to);
        sum += tables_of_few(kinds, at, end);
        at = end;
    }
    sum
}
