// A plan: its first line is judged first, then its length, its text, its commands.
ghost use Rattle.std.specs.Prelude.{◌≤◌, length, drop};
ghost use Rattle.station_lines.specs.Put.{PutWithin};
ghost use Rattle.station_listing.specs.Stations.{LineRead, plan_of, stations_of};

use crate::flights::fly;
use answers::Refusal;
use station_lines::inner::put_refusal;
use svg::read_lean;
use text_reader::{FirstLine, TextReader, past, reader_at};

// The path that starts at `start`, with so many stations. 256 commands have at most 1,792 numbers, so that reading refuses more commands and
// nothing else. The lean reader is taken for its stack: the buffers of the path stand beside it.
fn answer(out: &mut [u8], input: &[u8], start: usize, count: usize) -> usize
    requires { (start ≤ length input.now) × (2 ≤ count) × (count ≤ 1000) }
    ensures { PutWithin 69632 (plan_of count (drop start input.now)) 0 out.old out.new result }
{
    if 4096 < input.len() - start {
        return put_refusal(out, 0, Refusal::TooLong(4097));
    }
    let mut letters = [0u8; 256];
    let mut numbers = [0.0f32; 1792];
    let mut offsets = [0u32; 256];
    match read_lean(&input[start..], &mut letters, &mut numbers, &mut offsets) {
        Ok(counts) => fly(
            out,
            input,
            start,
            count,
            &letters[..counts.letters],
            &numbers[..counts.numbers],
        ),
        Err(refusal) => put_refusal(out, 0, refusal),
    }
}

// A plan whose first line is read, and whose path starts at `start`: a refused line is told, and nothing else of the plan.
fn judged(input: &[u8], start: usize, line: Result<FirstLine, Refusal>, out: &mut [u8]) -> usize
    requires { LineRead input.now start line }
    ensures { PutWithin 69632 (stations_of input.now) 0 out.old out.new result }
{
    match line {
        Ok(asked) => answer(out, input, start, asked.count),
        Err(reason) => put_refusal(out, 0, reason),
    }
}

// The same by a reader that has moved past the line.
fn judged_by<'a>(reader: TextReader<'a>, line: Result<FirstLine, Refusal>, out: &mut [u8]) -> usize
    requires { LineRead reader.text.now reader.at line }
    ensures { PutWithin 69632 (stations_of reader.entry.text.now) 0 out.old out.new result }
{
    judged(reader.text, reader.at, line, out)
}

// Puts the listing of a plan into as many places as there are, and gives its length. A reader goes through the plan: it reads the first
// line, and moves past it to the path.
pub fn tell(out: &mut [u8], input: &[u8]) -> usize
    ensures { PutWithin 69632 (stations_of input.now) 0 out.old out.new result }
{
    let first = reader_at(input, 0);
    let line = first.line();
    judged_by(first.moved(past(line, 0)), line, out)
}
