// Marks: how many fields and table entries stand before every so many segments of a path, at 256 places at most. They are a power of two of
// segments apart, which is kept as its exponent, the shift.
ghost use Rattle.std.specs.Prelude.{◌≡◌, ◌≤◌, ◌<◌, get_or, length, true};
ghost use Rattle.path_stored.specs.Near.{Known};
ghost use Rattle.path_place.specs.Cursors.{Moving, cursor_of};
ghost use Rattle.path_marks.specs.Marks.{Leap, Reach, Reaching, Short};

use path_place::inner::{forward, moved};
use path_place::{Cursor, first_cursor};
use path_stored::inner::{fields_near, tables_near};
use std::marker::Model;

// The shift of marks that are not set: so far apart, the first stands at the path's first segment and none of the others on it.
const UNSET: usize = 16;

// The least shift at which 256 marks reach over so many segments.
fn shift_for(count: usize) -> usize
    requires { count ≤ 65536 }
    ensures { Reach count result }
{
    for shift in 0..UNSET {
        if count <= 256usize << shift {
            return shift;
        }
    }
    UNSET
}

// How far two segments are apart.
fn distance(a: usize, b: usize) -> usize {
    if a <= b { b - a } else { a - b }
}

// The number that the mark k keeps: std has no `From` for it.
fn kept(marks: &[u32; 256], k: usize) -> usize
    requires { k < 256 }
    ensures { result ≡ get_or marks.now k 0 }
{
    marks[k] as usize
}

// A path's kinds with their marks, which the caller has room for: what reads the tables' alone then keeps those alone. A clause sees the
// kinds.
#[derive(Drop)]
pub struct Marks<'a> {
    kinds: &'a [u8],
    shift: usize,
    fields: &'a mut [u32; 256],
    tables: &'a mut [u32; 256],
}

impl<'a> Model for Marks<'a> {
    ghost use Rattle.std.specs.Prelude.{ℕ, List};

    ghost Value = { List ℕ };

    ghost use Rattle.path_marks.specs.Marked.{AreMarks};

    ghost view = { λ marks. marks.kinds.now };

    ghost invariant = { AreMarks };
}

impl<'a> Marks<'a> {
    // Marks that are not set yet.
    pub fn unset(
        kinds: &'a [u8],
        fields: &'a mut [u32; 256],
        tables: &'a mut [u32; 256],
    ) -> Marks<'a>
        requires { length kinds.now ≤ 65536 }
        ensures { result ≡ kinds.now }
    {
        fields[0] = 0;
        tables[0] = 0;
        Marks {
            kinds,
            shift: UNSET,
            fields,
            tables,
        }
    }

    // Sets them, as near to each other as 256 allow. Laid into its callers, so that a batch of places keeps the tables' marks alone.
    #[inline(always)]
    fn set(&mut self)
        requires { 0 < length self.old }
        ensures { self.new ≡ self.old }
    {
        let count = self.kinds.len();
        self.shift = shift_for(count);
        let apart = 1usize << self.shift;
        let mut at = first_cursor(self.kinds);
        for k in 0..256 {
            self.fields[k] = at.fields as u32;
            self.tables[k] = at.tables as u32;
            if count - at.segment <= apart {
                return;
            }
            at = forward(self.kinds, at, at.segment + apart);
        }
    }

    // The cursor or the mark before the segment, whichever is nearer.
    fn nearest(&self, from: Cursor, segment: usize) -> Cursor
        requires { Leap self.now from segment }
        ensures { Moving self.now result segment }
    {
        let k = segment >> self.shift;
        let start = k << self.shift;
        if distance(from.segment, segment) <= segment - start {
            return from;
        }
        Cursor {
            segment: start,
            fields: kept(self.fields, k),
            tables: kept(self.tables, k),
        }
    }

    // Where the walk to a segment starts. Marks are set once, before the first step back of more than 16 segments.
    #[inline(always)]
    pub fn start(&mut self, from: Cursor, segment: usize) -> Cursor
        requires { Leap self.old from segment }
        ensures marks { self.new ≡ self.old }
        ensures start { Moving self.old result segment }
    {
        if self.shift == UNSET && segment + 16 < from.segment {
            self.set();
        }
        self.nearest(from, segment)
    }

    // From a cursor to a segment before or after it, over known kinds.
    #[inline(always)]
    pub fn walk(&self, from: Cursor, segment: usize) -> Cursor
        requires moving { Moving self.now from segment }
        requires known { Known self.now }
        ensures { result ≡ cursor_of self.now segment }
    {
        if is_near(self.kinds, from, segment) {
            reached(self.kinds, from, segment)
        } else {
            moved(self.kinds, from, segment)
        }
    }
}

// Whether the way to a segment is one that two words of kinds count. On a path of up to 1,024 segments marks are four apart at most, and
// the walk from one is as short.
pub fn is_near(kinds: &[u8], from: Cursor, segment: usize) -> bool
    ensures { result ≡ true → Short from.segment segment }
{
    let start = from.segment;
    if kinds.len() <= 1024 {
        return false;
    }
    if segment < 16 {
        return false;
    }
    if segment < start {
        return false;
    }
    segment - start <= 16
}

// The cursor of such a segment.
pub fn reached(kinds: &[u8], from: Cursor, segment: usize) -> Cursor
    requires { Reaching kinds.now from segment }
    ensures { result ≡ cursor_of kinds.now segment }
{
    let start = from.segment;
    Cursor {
        segment,
        fields: from.fields + fields_near(kinds, start, segment),
        tables: from.tables + 33 * tables_near(kinds, start, segment),
    }
}
