// Counting what an arc stores: whether it is long is judged by what stands before its angles, which are not taken.
ghost use Rattle.std.specs.Prelude.{◌≡◌};
ghost use Rattle.path_drawing.specs.Drawing.{arc_of};
ghost use Rattle.path_storing.specs.Tallies.{FewIn, counted_of};

use crate::tallies::{Tally, grown};
use arc::is_fallback;
use ellipse::Chord;
use floats::is_finite;
use path_bounds::is_calm_chord;
use path_drawing::Pen;

// What an arc comes to, where both its ends are calm.
#[tactic(auto, using(crate::proofs::ArcTallying::arc_ways), unfolding(crate::specs::Tallies::counted_of, path_drawing::specs::Drawing::arc_of))]
pub(crate) fn count_arc(so_far: Tally, chord: Chord, next: Pen) -> Option<Tally>
    requires { FewIn so_far }
    ensures { result ≡ counted_of so_far (arc_of chord next) }
{
    if is_fallback(chord) {
        return Some(grown(so_far, next, 11, 0));
    }
    if is_finite(chord.x_axis_rotation) && is_calm_chord(chord) {
        return Some(grown(so_far, next, 11, 33));
    }
    None
}
