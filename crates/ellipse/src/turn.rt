// The turn of an ellipse: sine and cosine of its rotation.
ghost use Rattle.std.specs.Prelude.{◌≡◌};
ghost use Rattle.ellipse.specs.Turn.{turn_of};

use trig::SinCos;

// Sine and cosine of a rotation in degrees, full turns taken off first. Those of infinity and of a NaN are NaN.
pub fn turn_of(x_axis_rotation: f32) -> SinCos
    ensures { result ≡ turn_of x_axis_rotation }
{
    trig::sin_cos(rotation::phi(x_axis_rotation))
}
