// The pen: where drawing stands between two commands.
ghost use Rattle.std.specs.Prelude.{◌≡◌};
ghost use Rattle.path_drawing.specs.Drawing.{fresh_of, moved_of, drawn_of};

use math::Point;

#[derive(Clone, Copy)]
pub struct Pen {
    pub current: Option<Point>,
    // The subpath's start: the point of the last MoveTo, or (0, 0) before the first.
    pub start: Point,
}

// The pen before the first command.
#[tactic(auto, unfolding(crate::specs::Drawing::fresh_of, math::specs::Math::origin_f, floats::specs::Floats::zero_f))]
pub fn fresh() -> Pen
    ensures { result ≡ fresh_of }
{
    Pen {
        current: None,
        start: Point { x: 0.0, y: 0.0 },
    }
}

// The pen at the start of a subpath.
pub fn moved(point: Point) -> Pen
    ensures { result ≡ moved_of point }
{
    Pen {
        current: Some(point),
        start: point,
    }
}

// The pen at the end of a drawing command: the subpath's start stays.
pub fn drawn(pen: Pen, end: Point) -> Pen
    ensures { result ≡ drawn_of pen end }
{
    let start = pen.start;
    Pen {
        current: Some(end),
        start,
    }
}
