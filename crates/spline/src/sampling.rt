// Samples along points that the caller has judged: two numbers each, at most 4,096.
ghost use Rattle.std.specs.Prelude.{◌≡◌, ◌+◌, ◌-◌, ◌<◌, ◌≤◌};
ghost use Rattle.polyline.specs.Points.{count_of};
ghost use Rattle.spline.specs.Formula.{scaled_of, index_of, before_span, after_span, along_of, curve_of, spline_sample_of, spline_direction_of, InSpans};

use crate::formula::span;
use math::{Point, clamp01, lerp_point, normalize, sub};
use polyline::inner::point_at;
use table::{RawParameter, earlier, later, number_of};

// The number of the span at `scaled`, from 0 to the number of spans: its whole part, but not past the last span.
#[tactic(auto, unfolding(crate::specs::Formula::index_of))]
fn span_index(segments: usize, scaled: f32) -> usize
    requires { InSpans segments scaled }
    ensures { result ≡ index_of segments scaled }
{
    let whole = std::num::truncating_f32_to_u64(scaled) as usize;
    whole.min(segments - 1)
}

// The point before a span; before the first span it is the first point.
pub fn before_span(points: &[f32], index: usize) -> Point
    requires { index < count_of points.now }
    ensures { result ≡ before_span points.now index }
{
    if index == 0 {
        return point_at(points, 0);
    }
    point_at(points, index - 1)
}

// The point after a span; after the last span it is the last point.
pub fn after_span(points: &[f32], index: usize) -> Point
    requires { index + 1 < count_of points.now }
    ensures { result ≡ after_span points.now index }
{
    let count = points.len() / 2;
    if index + 2 < count {
        return point_at(points, index + 2);
    }
    point_at(points, count - 1)
}

// The point of the span number `index` at what is left of `scaled`.
#[tactic(auto, unfolding(crate::specs::Formula::along_of))]
fn along(points: &[f32], scaled: f32, index: usize) -> Point
    requires { (index + 1 < count_of points.now) × (count_of points.now ≤ 4096) }
    ensures { result ≡ along_of points.now scaled index }
{
    let t = scaled - index as f32;
    let p0 = before_span(points, index);
    let p1 = point_at(points, index);
    let p2 = point_at(points, index + 1);
    let p3 = after_span(points, index);
    span(p0, p1, p2, p3, t)
}

// The point at a raw parameter along three points or more.
#[tactic(auto, unfolding(crate::specs::Formula::curve_of, crate::specs::Formula::scaled_of))]
fn curve(points: &[f32], raw: RawParameter) -> Point
    requires { (3 ≤ count_of points.now) × (count_of points.now ≤ 4096) }
    ensures { result ≡ curve_of points.now (count_of points.now - 1) (scaled_of (count_of points.now - 1) raw.value) }
{
    let segments = points.len() / 2 - 1;
    let scaled = clamp01(number_of(raw)) * segments as f32;
    let index = span_index(segments, scaled);
    along(points, scaled, index)
}

// The point at a raw parameter, by the number of points.
pub fn sample(points: &[f32], raw: RawParameter) -> Point
    requires { count_of points.now ≤ 4096 }
    ensures { result ≡ spline_sample_of points.now raw.value }
{
    let count = points.len() / 2;
    if count == 0 {
        return Point { x: 0.0, y: 0.0 };
    }
    if count == 1 {
        return point_at(points, 0);
    }
    if count == 2 {
        let t = clamp01(number_of(raw));
        let first = point_at(points, 0);
        let second = point_at(points, 1);
        return lerp_point(first, second, t);
    }
    curve(points, raw)
}

// The direction at a raw parameter, with the length 1: of the only leg, or between two samples a thousandth to each side.
pub fn direction(points: &[f32], raw: RawParameter) -> Point
    requires { count_of points.now ≤ 4096 }
    ensures { result ≡ spline_direction_of points.now raw.value }
{
    let count = points.len() / 2;
    if count < 2 {
        return Point { x: 0.0, y: 0.0 };
    }
    if count == 2 {
        let first = point_at(points, 0);
        let second = point_at(points, 1);
        return normalize(sub(second, first));
    }
    let before = sample(points, earlier(raw));
    let after = sample(points, later(raw));
    normalize(sub(after, before))
}
