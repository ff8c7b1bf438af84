// What one line after the console's says.
ghost use Rattle.text.specs.Told.{Gives};
ghost use Rattle.recording.specs.Content.{plain_line};
ghost use Rattle.recording.specs.Line.{line_of};

use super::call_line::{
    buffer_line, events_line, frame_line, paint_line, request_line, root_line, switch_line,
};
use super::content::Line;
use std::alloc::Global;
use text::{Problem, Words};

pub(crate) fn read_line(heap: Global, mut line: Words<'_>) -> Result<Line, Problem>
    ensures { Gives plain_line result (line_of line.entry) }
{
    match line.next() {
        None => Ok(Line::Empty),
        Some(b"events") => events_line(line),
        Some(b"request") => request_line(heap, line),
        Some(b"buffer") => buffer_line(line),
        Some(b"root") => root_line(line),
        Some(b"paint") => paint_line(heap, line),
        Some(b"switch") => switch_line(line),
        Some(b"frame") => frame_line(line),
        Some(b"console") => Err(Problem::SecondConsole),
        Some(_) => Err(Problem::UnknownLine),
    }
}
