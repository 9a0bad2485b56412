// A row of lengths at once, and half of one. The coordinates stand in two rows, as lanes take them.

ghost use Rattle.std.specs.Prelude.{◌≡◌, ◌≤◌};
ghost use Rattle.lengths.specs.Length.{lengths_of, JudgedRow};

use crate::{exact, passes};

// Puts the length where a place is 0. Apart from its callers it takes less stack (tests/c/stack.c).
#[inline(never)]
fn settle<const N: usize>(x: &[f32; 32], y: &[f32; 32], out: &mut [f32; N])
    requires fits { N ≤ 32 }
    requires judged { JudgedRow N x.now y.now out.old }
    ensures { out.new ≡ lengths_of N x.now y.now }
{
    for j in 0..N {
        if out[j] == 0.0 {
            out[j] = exact::length(x[j], y[j]);
        }
    }
}

// Puts the lengths of the first 31 of 32 vectors. They are judged in two runs of 16, which leave no rest in lanes and have one in common;
// what a run did not settle is 0. Hardly a row has such a place: whether one does is joined over all of them without a branch, and asked
// once.
pub fn lengths(x: &[f32; 32], y: &[f32; 32], out: &mut [f32; 31])
    ensures { out.new ≡ lengths_of 31 x.now y.now }
{
    let mut unsettled = false;
    for at in [0usize, 15] {
        let known = passes::judged_run(x, y, at);
        for k in 0..16 {
            let own = known[k];
            out[at + k] = own;
            unsettled |= own == 0.0;
        }
    }
    if unsettled {
        settle(x, y, out);
    }
}

// The lengths of the first 16 of 32 vectors: one run.
pub fn half_lengths(x: &[f32; 32], y: &[f32; 32]) -> [f32; 16]
    ensures { result ≡ lengths_of 16 x.now y.now }
{
    let mut known = passes::judged_run(x, y, 0);
    let mut unsettled = false;
    for own in known {
        unsettled |= own == 0.0;
    }
    if unsettled {
        settle(x, y, &mut known);
    }
    known
}
