// The 32 samples of an ellipse's arc, each pass over all of them, the sines in runs of 8: a step waits for none before it, and they are
// laid over lanes. Two rows of 32 hold what a pass gives, and the next puts its own in place: two, not one of
// points, since `trig_all::inner::sin_cos_run` and `lengths::inner::lengths` take them so.
ghost use Rattle.arc.specs.Rows.{Row, angle_for, sine_for, cosine_for, across_for, along_for, step_for};

use ellipse::{Arc, angle_at, on_ellipse};
use math::Point;
use table::inner::mark;
use trig::SinCos;
use trig_all::inner::sin_cos_run;

// Puts the angle of each sample.
pub(crate) fn put_angles(shape: Arc, x: &mut [f32; 32])
    ensures { Row (angle_for shape) 32 x.new }
{
    for i in 0..32 {
        x[i] = angle_at(shape, mark(i, 31));
    }
}

// Puts the sine of each angle in its place, and the cosine beside it. Four calls, not a loop: so the rows of a run stand in a frame of
// their own, and a run's length is not known where it is taken.
pub(crate) fn put_sines(x: &mut [f32; 32], y: &mut [f32; 32])
    ensures sines { Row (sine_for x.old) 32 x.new }
    ensures cosines { Row (cosine_for x.old) 32 y.new }
{
    sin_cos_run(x, y, 0, 8);
    sin_cos_run(x, y, 8, 16);
    sin_cos_run(x, y, 16, 24);
    sin_cos_run(x, y, 24, 32);
}

// Puts the point of each sine and cosine in their places.
pub(crate) fn put_points(
    center: Point,
    radii: Point,
    turn: SinCos,
    x: &mut [f32; 32],
    y: &mut [f32; 32],
)
    ensures across { Row (across_for center radii turn x.old y.old) 32 x.new }
    ensures along { Row (along_for center radii turn x.old y.old) 32 y.new }
{
    for i in 0..32 {
        let angle = SinCos {
            sin: x[i],
            cos: y[i],
        };
        let point = on_ellipse(center, radii, turn, angle);
        x[i] = point.x;
        y[i] = point.y;
    }
}

// Puts the difference from each of the first 31 numbers to the next in its place.
pub(crate) fn put_differences(x: &mut [f32; 32])
    ensures { Row (step_for x.old) 31 x.new }
{
    for i in 0..31 {
        x[i] = x[i + 1] - x[i];
    }
}
