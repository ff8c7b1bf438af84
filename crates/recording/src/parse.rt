// A recording's text as values.
ghost use Rattle.std.specs.Prelude.{◌≡◌};
ghost use Rattle.text.specs.Lines.{lines_left};
ghost use Rattle.text.specs.Told.{Gives, GivesFile};
ghost use Rattle.recording.specs.Content.{plain_entries};
ghost use Rattle.recording.specs.Recording.{after_line, entries_after, recording_of};

use super::call_line::console_line;
use super::content::{Entry, Line, Recording};
use super::line::read_line;
use std::alloc::Global;
use text::{BadLine, Lines, Problem, Words, first_line};

// How many places an event list has before the first `events` line.
const FIRST_PLACES: u32 = 160;

// The places of the event lists after a line, whose call goes to the entries.
fn add_line(
    heap: Global,
    words: Words<'_>,
    line: usize,
    places: u32,
    entries: &mut Vec<Entry>,
) -> Result<u32, Problem>
    ensures { Gives (λ after. (after, plain_entries entries.new.items)) result (after_line line places (plain_entries entries.old.items) words.entry) }
{
    match read_line(heap, words)? {
        Line::Empty => Ok(places),
        Line::Places(after) => Ok(after),
        Line::Call(call) => {
            entries.push(Entry { line, places, call })?;
            Ok(places)
        }
    }
}

// The entries of the lines that follow the console's. A scene file's items are read by a loop like this one, without the places that
// go from line to line: a shared one would be handed a closure and be longer.
fn read_entries(heap: Global, lines: Lines<'_>, entries: &mut Vec<Entry>) -> Result<(), BadLine>
    ensures { GivesFile (λ _. plain_entries entries.new.items) result (entries_after lines.entry.before 160 (plain_entries entries.old.items) (lines_left lines.entry)) }
{
    let mut places = FIRST_PLACES;
    for (number, line) in lines {
        places = add_line(heap, Words::of(line), number, places, entries).map_err(|problem| {
            BadLine {
                line: number,
                problem,
            }
        })?;
    }
    Ok(())
}

// The recording of a file, or its first line that is wrong.
pub fn parse_recording(heap: Global, text: &[u8]) -> Result<Recording, BadLine>
    ensures { GivesFile (λ file. (file.console, file.console_line, plain_entries file.entries.items)) result (recording_of text.now) }
{
    let (line, first, rest) = first_line(text)?;
    let console = console_line(Words::of(first)).map_err(|problem| BadLine { line, problem })?;
    let mut entries = Vec::new(heap);
    read_entries(heap, rest, &mut entries)?;
    Ok(Recording {
        console,
        console_line: line,
        entries,
    })
}
