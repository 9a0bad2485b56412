// A line, a quad or a cubic whose command is known, stored at a site with no command and no drawing copied.
ghost use Rattle.std.specs.Prelude.{◌≡◌, [], ◌∷◌, ◌+◌, ◌≤◌, length};
ghost use Rattle.std.proofs.lemmas.List.Edits.{sets};
ghost use Rattle.arc.specs.Lines.{line_of};
ghost use Rattle.commands.specs.declared.command.PathCommand.TheVariants.{LineTo, QuadTo, CubicTo};
ghost use Rattle.path_stored.specs.Buffers.{after, before_mut, lent_mut};
ghost use Rattle.path_segment.specs.declared.segments.PathSegment.TheVariants.{Line};
ghost use Rattle.path_drawing.specs.Drawing.{drawn_of, draw_of};
ghost use Rattle.path_drawing.specs.declared.strokes.Drawn.TheVariants.{Segment};
ghost use Rattle.path_storing.specs.Sites.{FewAt, Room, Laid};

use crate::laying::{moved, store_segment};
use crate::sites::Site;
use math::{Point, distance};
use path_drawing::drawn;
use path_segment::PathSegment;

// Puts a point that has no NaN at `at` and after it.
fn put_point(fields: &mut [f32], at: usize, p: Point)
    requires { at + 2 ≤ length fields.old }
    ensures { fields.new ≡ sets fields.old at (p.x ∷ p.y ∷ []) }
{
    fields[at] = p.x;
    fields[at + 1] = p.y;
}

// Stores the line from the current point, `start`, to an end. Only what builds is stored, so that the running length is finite and no number of
// the line is a NaN.
fn lay_line(
    site: Site,
    number: u32,
    start: Point,
    end: Point,
    kinds: &mut [u8],
    fields: &mut [f32],
    tables: &mut [f32],
    lengths: &mut [f32],
    commands: &mut [u32],
) -> Site
    requires { FewAt site × Room site (Some (Segment (Line (line_of start end)) (drawn_of site.pen end))) (lent_mut kinds fields tables lengths commands) }
    ensures { Laid site number (Some (Segment (Line (line_of start end)) (drawn_of site.pen end)))
        (before_mut kinds fields tables lengths commands) result (after kinds fields tables lengths commands) }
{
    let index = site.sizes.segments;
    let at = site.sizes.fields;
    kinds[index] = 0;
    put_point(fields, at, start);
    put_point(fields, at + 2, end);
    let length = site.length + distance(start, end);
    lengths[index] = length;
    commands[index] = number;
    Site {
        pen: drawn(site.pen, end),
        length,
        sizes: site.sizes.grown(4, 0),
    }
}

// Stores what a LineTo draws at a site. Laid into its callers: a site that is returned is read back in other widths than it is written, which
// waits for each part.
#[inline(always)]
pub fn line_to(
    site: Site,
    number: u32,
    end: Point,
    kinds: &mut [u8],
    fields: &mut [f32],
    tables: &mut [f32],
    lengths: &mut [f32],
    commands: &mut [u32],
) -> Site
    requires { FewAt site × Room site (draw_of site.pen (LineTo end)) (lent_mut kinds fields tables lengths commands) }
    ensures { Laid site number (draw_of site.pen (LineTo end)) (before_mut kinds fields tables lengths commands) result (after kinds fields tables lengths commands) }
{
    let Some(start) = site.pen.current else {
        return moved(site, drawn(site.pen, end));
    };
    lay_line(
        site, number, start, end, kinds, fields, tables, lengths, commands,
    )
}

// Stores what a QuadTo draws at a site.
pub fn quad_to(
    site: Site,
    number: u32,
    control: Point,
    end: Point,
    kinds: &mut [u8],
    fields: &mut [f32],
    tables: &mut [f32],
    lengths: &mut [f32],
    commands: &mut [u32],
) -> Site
    requires { FewAt site × Room site (draw_of site.pen (QuadTo control end)) (lent_mut kinds fields tables lengths commands) }
    ensures { Laid site number (draw_of site.pen (QuadTo control end)) (before_mut kinds fields tables lengths commands) result (after kinds fields tables lengths commands) }
{
    let Some(start) = site.pen.current else {
        return moved(site, drawn(site.pen, end));
    };
    let segment = PathSegment::Quad {
        start,
        control,
        end,
    };
    let length = store_segment(
        site.length,
        site.sizes.segments,
        site.sizes.fields,
        site.sizes.tables,
        number,
        segment,
        kinds,
        fields,
        tables,
        lengths,
        commands,
    );
    Site {
        pen: drawn(site.pen, end),
        length,
        sizes: site.sizes.grown(6, 33),
    }
}

// Stores what a CubicTo draws at a site.
pub fn cubic_to(
    site: Site,
    number: u32,
    control1: Point,
    control2: Point,
    end: Point,
    kinds: &mut [u8],
    fields: &mut [f32],
    tables: &mut [f32],
    lengths: &mut [f32],
    commands: &mut [u32],
) -> Site
    requires { FewAt site × Room site (draw_of site.pen (CubicTo control1 control2 end)) (lent_mut kinds fields tables lengths commands) }
    ensures { Laid site number (draw_of site.pen (CubicTo control1 control2 end)) (before_mut kinds fields tables lengths commands) result (after kinds fields tables lengths commands) }
{
    let Some(start) = site.pen.current else {
        return moved(site, drawn(site.pen, end));
    };
    let segment = PathSegment::Cubic {
        start,
        control1,
        control2,
        end,
    };
    let length = store_segment(
        site.length,
        site.sizes.segments,
        site.sizes.fields,
        site.sizes.tables,
        number,
        segment,
        kinds,
        fields,
        tables,
        lengths,
        commands,
    );
    Site {
        pen: drawn(site.pen, end),
        length,
        sizes: site.sizes.grown(8, 33),
    }
}
