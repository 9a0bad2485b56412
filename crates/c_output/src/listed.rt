// The numbers of a table and of an arc, in the order in which they are stored.
ghost use Rattle.std.specs.Prelude.{◌≡◌};
ghost use Rattle.c_output.specs.Filling.{table_numbers, arc_numbers};

use crate::outputs::copy;
use ellipse::Arc;
use table::Table;

// The 32 entries of a table, then its total.
pub fn table_numbers(table: Table) -> [f32; 33]
    ensures { result ≡ table_numbers table }
{
    let entries = table.entries;
    let mut numbers = [0.0f32; 33];
    copy(&entries, &mut numbers);
    numbers[32] = table.total;
    numbers
}

// The ends of an arc, its centre, its radii, its rotation in degrees and its two angles in radians.
pub fn arc_numbers(shape: Arc) -> [f32; 11]
    ensures { result ≡ arc_numbers shape }
{
    let start = shape.start;
    let end = shape.end;
    let center = shape.center;
    let radii = shape.radii;
    [
        start.x,
        start.y,
        end.x,
        end.y,
        center.x,
        center.y,
        radii.x,
        radii.y,
        shape.x_axis_rotation,
        shape.start_angle,
        shape.delta_angle,
    ]
}
