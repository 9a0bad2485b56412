// The sums of a run's sines or cosines, over rows of 8 of which the first n places count. A pass has two products, so that it is laid over
// lanes; how many angles there are is not written in it, since a loop of 8 known places is unrolled instead.
ghost use Rattle.std.specs.Prelude.{ℕ, ◌+◌, ◌^◌, ◌≤◌, ◌<◌, get_or};
ghost use Rattle.trig_rule.specs.Steps.{square_of, fourth_of, risen};
ghost use Rattle.trig.specs.Ladders.{rungs_of};
ghost use Rattle.trig_all.specs.Rows.{Row, Below};

use trig::inner::{Ladder, fourth, rise, square};

// Puts the fourth power of each.
pub(crate) fn put_fourths(r: &[u64; 8], n: usize, v: &mut [u64; 8])
    requires { (n ≤ 8) × Below (2 ^ 58) n r.now }
    ensures { Row (λ (k : ℕ). fourth_of (get_or r.now k 0)) n v.new }
{
    for i in 0..n {
        v[i] = fourth(r[i]);
    }
}

// a + v·(b + v·c) for each v.
fn first_rungs(v: &[u64; 8], a: u64, b: u64, c: u64, n: usize, row: &mut [u32; 8])
    requires { (n ≤ 8) × (a + b + c < 2 ^ 32) × Below (2 ^ 32) n v.now }
    ensures { Row (λ (k : ℕ). risen a (get_or v.now k 0) (risen b (get_or v.now k 0) c)) n row.new }
{
    for i in 0..n {
        row[i] = rise(a, v[i], rise(b, v[i], c)) as u32;
    }
}

// a + v·(b + v·h) for each v, where h stands in its place.
fn next_rungs(v: &[u64; 8], a: u64, b: u64, n: usize, row: &mut [u32; 8])
    requires { (n ≤ 8) × Below (2 ^ 32) n v.now × ((k : ℕ) → k < n → a + b + get_or row.old k 0 < 2 ^ 32) }
    ensures { Row (λ (k : ℕ). risen a (get_or v.now k 0) (risen b (get_or v.now k 0) (get_or row.old k 0))) n row.new }
{
    for i in 0..n {
        row[i] = rise(a, v[i], rise(b, v[i], row[i] as u64)) as u32;
    }
}

// a + v·(b + v·(c + v·(d + v·e))) for each v.
#[inline(always)]
fn climb(v: &[u64; 8], l: Ladder, n: usize, row: &mut [u32; 8])
    requires { (n ≤ 8) × Below (2 ^ 32) n v.now }
    ensures { Row (λ (k : ℕ). rungs_of l.a l.b l.c l.d l.e (get_or v.now k 0)) n row.new }
{
    first_rungs(v, l.c, l.d, l.e, n, row);
    next_rungs(v, l.a, l.b, n, row);
}

// Each times the square of its r.
fn times_squares(r: &[u64; 8], n: usize, row: &mut [u32; 8])
    requires { (n ≤ 8) × Below (2 ^ 58) n r.now × Below (2 ^ 32) n row.old }
    ensures { Row (λ (k : ℕ). risen 0 (square_of (get_or r.now k 0)) (get_or row.old k 0)) n row.new }
{
    for i in 0..n {
        row[i] = rise(0, square(r[i]), row[i] as u64) as u32;
    }
}

// What the sums of a series add and what they take away, by their ladders. A call knows the ladders' numbers, and so do the passes where
// they stand in it.
#[inline(always)]
pub(crate) fn sums(
    r: &[u64; 8],
    v: &[u64; 8],
    up: Ladder,
    down: Ladder,
    n: usize,
    plus: &mut [u32; 8],
    minus: &mut [u32; 8],
)
    requires { (n ≤ 8) × Below (2 ^ 58) n r.now × Row (λ (k : ℕ). fourth_of (get_or r.now k 0)) n v.now }
    ensures plus { Row (λ (k : ℕ). rungs_of up.a up.b up.c up.d up.e (fourth_of (get_or r.now k 0))) n plus.new }
    ensures minus { Row (λ (k : ℕ). risen 0 (square_of (get_or r.now k 0)) (rungs_of down.a down.b down.c down.d down.e (fourth_of (get_or r.now k 0)))) n minus.new }
{
    climb(v, up, n, plus);
    climb(v, down, n, minus);
    times_squares(r, n, minus);
}
