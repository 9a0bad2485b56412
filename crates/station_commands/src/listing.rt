// The lines of a path's commands, read from the plan once more, by the step of the text reader's crate.
ghost use Rattle.std.specs.Prelude.{◌+◌, ◌≤◌, length, drop};
ghost use Rattle.svg.specs.Texts.{commands_of, offsets_of};
ghost use Rattle.station_commands.specs.Passes.{FewCommands, Listed};

use station_lines::inner::put_command;
use svg_step::fresh;
use text_reader::step_at;

// Puts a line for each command of a path that reads and has at most 256, from `from` on, and gives the place past them. The state past a command has
// the offset of the letter that made it, counted from `start`.
pub fn list(input: &[u8], start: usize, out: &mut [u8], from: usize) -> usize
    requires { FewCommands (commands_of (drop start input.now)) × (length (drop start input.now) ≤ 4096) × (from + 17920 ≤ 69632) }
    ensures { Listed (offsets_of (drop start input.now)) (commands_of (drop start input.now)) from out.old out.new result }
{
    let mut reader = fresh();
    let mut at = from;
    while let Ok(Some(step)) = step_at(input, start, reader) {
        at = put_command(out, at, step.command, step.next.offset);
        reader = step.next;
    }
    at
}
