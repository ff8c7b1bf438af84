// The lines of a recording; those after the console's past the word that says their kind.
ghost use Rattle.std.specs.Prelude.{◌≡◌};
ghost use Rattle.text.specs.Told.{Gives, GivesAlways};
ghost use Rattle.recording.specs.CallLine.{console_line, events_line, request_line, buffer_line, root_line, paint_line, switch_line, frame_line};
ghost use Rattle.recording.specs.Content.{plain_line};

use super::choice::read_either;
use super::content::{Call, Console, Line, PresenterKind};
use super::message::read_message;
use super::paint::paint_pixels;
use model::Size;
use std::alloc::Global;
use text::{Argument, Problem, Words};

// console WIDTH HEIGHT composer|scanout PIXELS
// A scene's console has no presenter, and another problem: one function of both would be longer.
pub(crate) fn console_line(mut line: Words<'_>) -> Result<Console, Problem>
    ensures { result ≡ console_line line.entry }
{
    line.fixed(b"console", Problem::RecordingStart)?;
    let width = line.number(Argument::Width)?;
    let height = line.number(Argument::Height)?;
    let presenter = read_either(
        &mut line,
        (b"composer", PresenterKind::Composer),
        (b"scanout", PresenterKind::Scanout),
        Problem::RecordingStart,
    )?;
    let pixels = line.number(Argument::Pixels)?;
    line.end()?;
    Ok(Console {
        size: Size { width, height },
        presenter,
        pixels,
    })
}

// N
pub(crate) fn events_line(mut line: Words<'_>) -> Result<Line, Problem>
    ensures { GivesAlways plain_line result (events_line line.entry) }
{
    let places = line.number(Argument::Places)?;
    line.end()?;
    Ok(Line::Places(places))
}

// CLIENT HEX..
pub(crate) fn request_line(heap: Global, mut line: Words<'_>) -> Result<Line, Problem>
    ensures { Gives plain_line result (request_line line.entry) }
{
    let client = line.number(Argument::Client)?;
    let message = read_message(heap, line)?;
    Ok(Line::Call(Call::Request { client, message }))
}

// CLIENT ID FIRST WIDTH HEIGHT STRIDE FORMAT
// A scene file's element says the last five too; both are flat, so that each is filled in place.
pub(crate) fn buffer_line(mut line: Words<'_>) -> Result<Line, Problem>
    ensures { GivesAlways plain_line result (buffer_line line.entry) }
{
    let call = Call::Buffer {
        client: line.number(Argument::Client)?,
        id: line.number(Argument::Id)?,
        first: line.number(Argument::First)?,
        width: line.number(Argument::Width)?,
        height: line.number(Argument::Height)?,
        stride: line.number(Argument::Stride)?,
        format: line.number(Argument::Format)?,
    };
    line.end()?;
    Ok(Line::Call(call))
}

// CLIENT ID X Y
pub(crate) fn root_line(mut line: Words<'_>) -> Result<Line, Problem>
    ensures { GivesAlways plain_line result (root_line line.entry) }
{
    let call = Call::Root {
        client: line.number(Argument::Client)?,
        id: line.number(Argument::Id)?,
        x: line.number(Argument::X)?,
        y: line.number(Argument::Y)?,
    };
    line.end()?;
    Ok(Line::Call(call))
}

// CLIENT ID OFFSET PIXEL..
pub(crate) fn paint_line(heap: Global, mut line: Words<'_>) -> Result<Line, Problem>
    ensures { Gives plain_line result (paint_line line.entry) }
{
    Ok(Line::Call(Call::Paint {
        client: line.number(Argument::Client)?,
        id: line.number(Argument::Id)?,
        offset: line.number(Argument::Offset)?,
        pixels: paint_pixels(heap, line)?,
    }))
}

// on|off
pub(crate) fn switch_line(mut line: Words<'_>) -> Result<Line, Problem>
    ensures { GivesAlways plain_line result (switch_line line.entry) }
{
    let on = read_either(
        &mut line,
        (b"on", true),
        (b"off", false),
        Problem::SwitchForm,
    )?;
    line.end()?;
    Ok(Line::Call(Call::Switch { on }))
}

// TIME
pub(crate) fn frame_line(mut line: Words<'_>) -> Result<Line, Problem>
    ensures { GivesAlways plain_line result (frame_line line.entry) }
{
    let time = line.number(Argument::Time)?;
    line.end()?;
    Ok(Line::Call(Call::Frame { time }))
}
