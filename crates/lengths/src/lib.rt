// The length of a vector, and of a row of them at once (`inner`). Each root is guessed and judged by two squares, of a row in passes without
// a branch, which the compiler lays over two lanes of f64; what is not settled is worked out digit by digit.
#![tactic(auto)]

mod alone;
mod exact;
pub mod inner;
mod passes;
mod rows;

ghost use Rattle.std.specs.Prelude.{◌≡◌};
ghost use Rattle.lengths.specs.Length.{length_of};

// The length of the vector (x, y).
pub fn length(x: f32, y: f32) -> f32
    ensures { result ≡ length_of x y }
{
    alone::judged(x, y).unwrap_or_else(|| exact::length(x, y))
}
