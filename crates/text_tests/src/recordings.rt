// Recordings, good and bad.
use super::refused::{Cases, are_refused, is_refused};
use model::Size;
use recording::{Call, Console, PresenterKind, parse_recording};
use std::alloc::{AllocError, Global};
use std::test::Fail;

// A call, written out. The bench writes calls too, but a test is not to take what it expects from there.
fn shown(heap: Global, call: &Call) -> Result<String, AllocError> {
    match call {
        Call::Request { client, message } => format!(in heap; "request {client} {message:?}"),
        Call::Buffer {
            client,
            id,
            first,
            width,
            height,
            stride,
            format,
        } => format!(in heap; "buffer {client} {id} {first} {width} {height} {stride} {format}"),
        Call::Root { client, id, x, y } => format!(in heap; "root {client} {id} {x} {y}"),
        Call::Paint {
            client,
            id,
            offset,
            pixels,
        } => format!(in heap; "paint {client} {id} {offset} {pixels:?}"),
        Call::Switch { on } => format!(in heap; "switch {on}"),
        Call::Frame { time } => format!(in heap; "frame {time}"),
    }
}

// A line, and the call that it says.
const CALLS: &str = "request 7 0a0B ff => request 7 [10, 11, 255]
request 4294967295 => request 4294967295 []
request 0 # 00 => request 0 []
buffer 1 2 3 4 5 6 7 => buffer 1 2 3 4 5 6 7
root 1 2 -2147483648 2147483647 => root 1 2 -2147483648 2147483647
paint 1 2 3 0000000a 2*0000000B 0*00000000 ffffffff => paint 1 2 3 [10, 11, 11, 4294967295]
paint 1 2 4294967295 => paint 1 2 4294967295 []
switch on => switch true
switch off => switch false
frame 16 => frame 16";

#[test]
fn each_kind_of_call(rt: HostRuntime) -> Result<(), Fail> {
    let heap = rt.alloc();
    for case in CALLS.lines() {
        let (line, call) = case.split_once(" => ").ok_or("no call")?;
        let text = format!(in heap; "console 1 1 composer 1\n{line}\n")?;
        let file = parse_recording(heap, text.as_bytes())?;
        let [entry] = file.entries.as_slice() else {
            return Err(Fail::new("not one entry"));
        };
        assert_eq!(rt; shown(heap, &entry.call)?.as_str(), call);
    }
    Ok(())
}

#[test]
fn lines_and_places(rt: HostRuntime) -> Result<(), Fail> {
    let text =
        b"# before\r\n\r\n\tconsole 4 03 scanout 12 # a console\r\nframe 1\r\nevents 0\r\n\nframe 2\r\nswitch on\nevents 7\nevents 9 # twice\nframe 3";
    let file = parse_recording(rt.alloc(), text)?;
    assert_eq!(rt; file.console_line, 3);
    let console = Console {
        size: Size {
            width: 4,
            height: 3,
        },
        presenter: PresenterKind::Scanout,
        pixels: 12,
    };
    assert_eq!(rt; file.console, console);
    let expected = [(4, 160), (7, 0), (8, 0), (11, 9)];
    assert_eq!(rt; file.entries.len(), expected.len());
    for (entry, (line, places)) in file.entries.iter().zip(expected) {
        assert_eq!(rt; (entry.line, entry.places), (line, places));
    }
    Ok(())
}

#[test]
fn a_console_alone(rt: HostRuntime) -> Result<(), Fail> {
    let file = parse_recording(rt.alloc(), b"console 0 4294967295 composer 0")?;
    assert_eq!(rt; file.console_line, 1);
    assert_eq!(rt; file.console.presenter, PresenterKind::Composer);
    assert!(rt; file.entries.is_empty());
    Ok(())
}

#[test]
fn no_console(rt: HostRuntime) -> Result<(), Fail> {
    let empty = parse_recording(rt.alloc(), b"");
    is_refused(&rt, empty, "line 1: the file has no console line")?;
    let blank = parse_recording(rt.alloc(), b"#\n\n \r\n");
    is_refused(&rt, blank, "line 3: the file has no console line")
}

// The first line with a word, and what is said of it.
const BAD_CONSOLES: &str =
    "frame 1 => the first line must be: console WIDTH HEIGHT composer|scanout PIXELS
console 1 1 => the first line must be: console WIDTH HEIGHT composer|scanout PIXELS
console 1 1 painter 1 => the first line must be: console WIDTH HEIGHT composer|scanout PIXELS
console 1 => HEIGHT is missing
console 1 1 scanout -1 => PIXELS is not a number from 0 to 4294967295
console 1 1 scanout 1 1 => a word too many";

// A line after the console's, and what is said of it.
const BAD_LINES: &str = "console 1 1 composer 1 => a second console line
frames 1 => unknown word at the start of the line
frame => TIME is missing
frame 1 2 => a word too many
events => N is missing
events 4294967296 => N is not a number from 0 to 4294967295
events 1 1 => a word too many
request => CLIENT is missing
request 1 0a 0 => a message is hex digits, an even number to a word
request 1 0a0g => a message is hex digits, an even number to a word
request 1 g0 frame => a message is hex digits, an even number to a word
buffer 1 => ID is missing
buffer 1 2 3 4 5 6 => FORMAT is missing
buffer 1 2 3 4 5 6 7 8 => a word too many
root 1 2 3 => Y is missing
root 1 2 2147483648 x => X is not a number from -2147483648 to 2147483647
root 1 2 3 4 5 => a word too many
paint 1 2 => OFFSET is missing
paint 1 2 3 00000000 2*0000000 => a pixel is eight hex digits, or N*PIXEL
paint 1 2 3 4294967296*00000000 => a pixel is eight hex digits, or N*PIXEL
switch => switch is on or off
switch On => switch is on or off
switch on off => a word too many";

#[test]
fn bad_lines(rt: HostRuntime) -> Result<(), Fail> {
    let heap = rt.alloc();
    let consoles = Cases {
        before: "# before\n\n",
        after: "\nframe",
        number: 3,
        lines: BAD_CONSOLES,
    };
    are_refused(&rt, |text: &[u8]| parse_recording(heap, text), consoles)?;
    let lines = Cases {
        before: "console 1 1 composer 4\n\nframe 1\r\n",
        after: "\nframe",
        number: 4,
        lines: BAD_LINES,
    };
    are_refused(&rt, |text: &[u8]| parse_recording(heap, text), lines)
}
