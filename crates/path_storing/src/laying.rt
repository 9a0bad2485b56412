// A command at a site: judged and counted, and then stored. The callers know that there are few segments.
ghost use Rattle.std.specs.Prelude.{◌≡◌};
ghost use Rattle.path_stored.specs.Buffers.{after, before_mut, lent_mut};
ghost use Rattle.path_drawing.specs.Drawing.{fresh_of, draw_of};
ghost use Rattle.path_drawing.specs.Building.{length_after};
ghost use Rattle.path_drawing.specs.declared.strokes.Drawn.TheVariants.{Segment};
ghost use Rattle.path_storing.specs.Sites.{FewAt, site_at, Room, SegmentLaid, Laid, after_of, moved_of, advance_of};

use crate::direct::line_to;
use crate::sites::Site;
use answers::Refusal;
use commands::PathCommand;
use floats::{is_finite, tidy};
use path_drawing::{Drawn, Pen, draw};
use path_segment::inner::{put_segment, store_table};
use path_segment::{PathSegment, kind, segment_length, table_width, width};

// The site after a segment, where `length` is the running length up to its end.
fn after(site: Site, segment: PathSegment, length: f32, pen: Pen) -> Site
    requires { FewAt site × (length ≡ length_after site.length segment) }
    ensures { result ≡ after_of site segment pen }
{
    let byte = kind(segment);
    let own = width(byte);
    let more = table_width(byte);
    Site {
        pen,
        length,
        sizes: site.sizes.grown(own, more),
    }
}

// The site after a command that draws no segment.
#[tactic(auto, unfolding(crate::specs::Sites::moved_of))]
pub(crate) fn moved(site: Site, pen: Pen) -> Site
    ensures { result ≡ moved_of site pen }
{
    Site { pen, ..site }
}

// Judges a command at a site and counts what it stores: the next site, or `RotationRange` or `NotFinite`. Within its callers it takes
// less stack (tests/c/stack.c).
#[tactic(auto, unfolding(crate::specs::Sites::moved_of, crate::specs::Sites::judged_of, crate::specs::Sites::advance_of))]
#[inline(always)]
pub fn advance(site: Site, command: PathCommand) -> Result<Site, Refusal>
    requires { FewAt site }
    ensures { result ≡ advance_of site command }
{
    match draw(site.pen, command) {
        Some(Drawn::Moved(next)) => Ok(moved(site, next)),
        Some(Drawn::Segment { segment, next }) => {
            let length = tidy(site.length + segment_length(segment));
            if !is_finite(length) {
                return Err(Refusal::NotFinite(site.sizes.segments));
            }
            Ok(after(site, segment, length, next))
        }
        None => Err(Refusal::RotationRange(site.sizes.segments)),
    }
}

// Stores a segment of the command with this number where its kind, its fields and its table stand, after the running length `passed`, and
// gives the running length up to its end. No site is passed, so that callers keep theirs in registers.
pub(crate) fn store_segment(
    passed: f32,
    index: usize,
    own: usize,
    more: usize,
    number: u32,
    segment: PathSegment,
    kinds: &mut [u8],
    fields: &mut [f32],
    tables: &mut [f32],
    lengths: &mut [f32],
    commands: &mut [u32],
) -> f32
    requires { Room (site_at passed index own more) (Some (Segment segment fresh_of)) (lent_mut kinds fields tables lengths commands) }
    ensures { SegmentLaid (site_at passed index own more) number segment (before_mut kinds fields tables lengths commands) result (after kinds fields tables lengths commands) }
{
    kinds[index] = kind(segment);
    put_segment(fields, own, segment);
    let length = tidy(passed + store_table(tables, more, segment));
    lengths[index] = length;
    commands[index] = number;
    length
}

// The same at a site, after which the pen is `pen`.
fn lay_segment(
    site: Site,
    number: u32,
    segment: PathSegment,
    pen: Pen,
    kinds: &mut [u8],
    fields: &mut [f32],
    tables: &mut [f32],
    lengths: &mut [f32],
    commands: &mut [u32],
) -> Site
    requires { FewAt site × Room site (Some (Segment segment pen)) (lent_mut kinds fields tables lengths commands) }
    ensures { Laid site number (Some (Segment segment pen)) (before_mut kinds fields tables lengths commands) result (after kinds fields tables lengths commands) }
{
    let length = store_segment(
        site.length,
        site.sizes.segments,
        site.sizes.fields,
        site.sizes.tables,
        number,
        segment,
        kinds,
        fields,
        tables,
        lengths,
        commands,
    );
    after(site, segment, length, pen)
}

// Stores what any command draws at a site. A rotation out of range draws nothing here: `advance` refuses it. Within its callers it takes
// less stack (tests/c/stack.c).
#[inline(always)]
pub fn lay_any(
    site: Site,
    number: u32,
    command: PathCommand,
    kinds: &mut [u8],
    fields: &mut [f32],
    tables: &mut [f32],
    lengths: &mut [f32],
    commands: &mut [u32],
) -> Site
    requires { FewAt site × Room site (draw_of site.pen command) (lent_mut kinds fields tables lengths commands) }
    ensures { Laid site number (draw_of site.pen command) (before_mut kinds fields tables lengths commands) result (after kinds fields tables lengths commands) }
{
    match draw(site.pen, command) {
        Some(Drawn::Moved(next)) => moved(site, next),
        Some(Drawn::Segment { segment, next }) => {
            lay_segment(
                site, number, segment, next, kinds, fields, tables, lengths, commands,
            )
        }
        None => site,
    }
}

// Stores what a command draws at a site, where `number` is the command's, from 0, and gives the next site. A line goes its own way,
// which copies no segment.
pub fn lay(
    site: Site,
    number: u32,
    command: PathCommand,
    kinds: &mut [u8],
    fields: &mut [f32],
    tables: &mut [f32],
    lengths: &mut [f32],
    commands: &mut [u32],
) -> Site
    requires { FewAt site × Room site (draw_of site.pen command) (lent_mut kinds fields tables lengths commands) }
    ensures { Laid site number (draw_of site.pen command) (before_mut kinds fields tables lengths commands) result (after kinds fields tables lengths commands) }
{
    if let PathCommand::LineTo(end) = command {
        return line_to(site, number, end, kinds, fields, tables, lengths, commands);
    }
    lay_any(
        site, number, command, kinds, fields, tables, lengths, commands,
    )
}
