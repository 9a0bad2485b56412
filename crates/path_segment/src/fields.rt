// A segment's fields and its table in the buffers of a stored path: read, and stored.
ghost use Rattle.std.specs.Prelude.{◌≡◌, [], ◌+◌, ◌≤◌, ◌<◌, length, drop};
ghost use Rattle.std.proofs.lemmas.List.Edits.{sets};
ghost use Rattle.path_segment.specs.Segments.{width_of, xy, shape_fields, fields_of, shape_of, segment_of, table_numbers, table_at, table_stored, TableStored};

use crate::segments::{PathSegment, has_table, kind, segment_length, segment_table};
use arc::LineSegment;
use commands::inner::{point_at, put_two};
use ellipse::Arc;
use floats::tidy;
use math::Point;
use table::Table;

// Puts two points at four fields, and touches no other.
fn put_pair(fields: &mut [f32], at: usize, p: Point, q: Point)
    requires { at + 4 ≤ length fields.old }
    ensures { fields.new ≡ sets fields.old at (xy p (xy q [])) }
{
    put_two(fields, at, p.x, p.y);
    put_two(fields, at + 2, q.x, q.y);
}

fn put_quad(fields: &mut [f32], at: usize, start: Point, control: Point, end: Point)
    requires { at + 6 ≤ length fields.old }
    ensures { fields.new ≡ sets fields.old at (xy start (xy control (xy end []))) }
{
    put_pair(fields, at, start, control);
    put_two(fields, at + 4, end.x, end.y);
}

fn put_cubic(
    fields: &mut [f32],
    at: usize,
    start: Point,
    control1: Point,
    control2: Point,
    end: Point,
)
    requires { at + 8 ≤ length fields.old }
    ensures { fields.new ≡ sets fields.old at (xy start (xy control1 (xy control2 (xy end [])))) }
{
    put_pair(fields, at, start, control1);
    put_pair(fields, at + 4, control2, end);
}

fn put_shape(fields: &mut [f32], at: usize, shape: Arc)
    requires { at + 11 ≤ length fields.old }
    ensures { fields.new ≡ sets fields.old at (shape_fields shape) }
{
    put_cubic(
        fields,
        at,
        shape.start,
        shape.end,
        shape.center,
        shape.radii,
    );
    put_two(fields, at + 8, shape.x_axis_rotation, shape.start_angle);
    fields[at + 10] = tidy(shape.delta_angle);
}

// Stores a segment's fields from `at` on.
pub fn put_segment(fields: &mut [f32], at: usize, segment: PathSegment)
    requires { at + length (fields_of segment) ≤ length fields.old }
    ensures { fields.new ≡ sets fields.old at (fields_of segment) }
{
    match segment {
        PathSegment::Line(line) => put_pair(fields, at, line.start, line.end),
        PathSegment::Quad {
            start,
            control,
            end,
        } => put_quad(fields, at, start, control, end),
        PathSegment::Cubic {
            start,
            control1,
            control2,
            end,
        } => put_cubic(fields, at, start, control1, control2, end),
        PathSegment::Arc(shape) => put_shape(fields, at, shape),
        PathSegment::Fallback(shape) => put_shape(fields, at, shape),
    }
}

fn shape_at(fields: &[f32], at: usize) -> Arc
    requires { at + 11 ≤ length fields.now }
    ensures { result ≡ shape_of (drop at fields.now) }
{
    let start = point_at(fields, at);
    let end = point_at(fields, at + 2);
    let center = point_at(fields, at + 4);
    let radii = point_at(fields, at + 6);
    Arc {
        start,
        end,
        center,
        radii,
        x_axis_rotation: fields[at + 8],
        start_angle: fields[at + 9],
        delta_angle: fields[at + 10],
    }
}

// The segment of a known kind, whose fields stand from `at` on.
#[tactic(auto, unfolding(crate::specs::Segments::width_of, crate::specs::Segments::segment_of))]
pub fn segment_at(kind: u8, fields: &[f32], at: usize) -> PathSegment
    requires kind_bound { kind < 5 }
    requires kind_in_bounds { at + width_of kind ≤ length fields.now }
    ensures { result ≡ segment_of kind (drop at fields.now) }
{
    match kind {
        0 => {
            let start = point_at(fields, at);
            let end = point_at(fields, at + 2);
            PathSegment::Line(LineSegment { start, end })
        }
        1 => PathSegment::Quad {
            start: point_at(fields, at),
            control: point_at(fields, at + 2),
            end: point_at(fields, at + 4),
        },
        2 => PathSegment::Cubic {
            start: point_at(fields, at),
            control1: point_at(fields, at + 2),
            control2: point_at(fields, at + 4),
            end: point_at(fields, at + 6),
        },
        3 => PathSegment::Arc(shape_at(fields, at)),
        _ => PathSegment::Fallback(shape_at(fields, at)),
    }
}

// The table whose 33 numbers stand from `at` on: 32 entries, then the total.
pub fn table_at(tables: &[f32], at: usize) -> Table
    requires { at + 33 ≤ length tables.now }
    ensures { result ≡ table_at tables.now at }
{
    let mut entries = [0.0f32; 32];
    // `copy_from_slice` is a memmove, which modules for 32-bit processors must not have (DECISIONS 222).
    for k in 0..32 {
        entries[k] = tables[at + k];
    }
    Table {
        entries,
        total: tables[at + 32],
    }
}

// Stores a table's 33 numbers from `at` on. Apart from its callers it takes less stack (tests/c/stack.c).
#[inline(never)]
pub fn put_table(tables: &mut [f32], at: usize, table: Table)
    requires { at + 33 ≤ length tables.old }
    ensures { tables.new ≡ sets tables.old at (table_numbers table) }
{
    let entries = table.entries;
    for k in 0..32 {
        tables[at + k] = tidy(entries[k]);
    }
    tables[at + 32] = tidy(table.total);
}

// Stores a segment's table from `at` on, where it has one, and gives the segment's length.
#[tactic(auto, unfolding(crate::specs::Segments::table_stored))]
pub fn store_table(tables: &mut [f32], at: usize, segment: PathSegment) -> f32
    requires { at + length (table_stored segment) ≤ length tables.old }
    ensures { TableStored at segment tables.old result tables.new }
{
    if has_table(kind(segment)) {
        let table = segment_table(segment);
        put_table(tables, at, table);
        return tidy(table.total);
    }
    segment_length(segment)
}
