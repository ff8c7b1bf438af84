// Scene files, good and bad.
use super::refused::{Cases, are_refused, is_refused};
use list::Appender;
use model::{Element, Size};
use scene::{Console, Item, collect_elements, fill_memory, parse_scene};
use std::test::Fail;

#[test]
fn a_good_file(rt: HostRuntime) -> Result<(), Fail> {
    let heap = rt.alloc();
    let file = parse_scene(
        heap,
        b"# two pixels\r\n\nconsole 4 03 composer 4\r\npixels 0 Ff00fF00\t3*11223344\npixels 4 0*00000000\nelement -1 2 0 1 2 2 0",
    )?;
    let console = Console {
        size: Size {
            width: 4,
            height: 3,
        },
        pixels: 4,
    };
    assert_eq!(rt; file.console, console);
    assert_eq!(rt; file.items.len(), 4);
    let mut memory = [0; 5];
    fill_memory(file.items.as_slice(), &mut memory);
    assert_eq!(rt; memory, [0xff00ff00, 0x11223344, 0x11223344, 0x11223344, 0]);
    let element = Element {
        x: -1,
        y: 2,
        first: 0,
        width: 1,
        height: 2,
        stride: 2,
        format: 0,
    };
    assert_eq!(rt; file.items.get(3).copied(), Some(Item::Element(element)));
    Ok(())
}

#[test]
fn elements_in_order(rt: HostRuntime) -> Result<(), Fail> {
    let text =
        b"console 1 1 composer 1\nelement 1 0 0 1 1 1 0\npixels 0 1*00000001\nelement 2 0 0 1 1 1 1\n";
    let file = parse_scene(rt.alloc(), text)?;
    let blank = Element::default();
    let mut places = [blank; 3];
    let mut scene = Appender::new(&mut places);
    collect_elements(file.items.as_slice(), &mut scene);
    assert_eq!(rt; scene.count(), 2);
    assert_eq!(rt; places[0].x, 1);
    assert_eq!(rt; places[1].x, 2);
    assert_eq!(rt; places[2], blank);
    Ok(())
}

#[test]
fn numbers_at_their_bounds(rt: HostRuntime) -> Result<(), Fail> {
    let text =
        b"console 4294967295 0 composer 4294967295\npixels 4294967294 00000000\npixels 4294967295\nelement -2147483648 2147483647 4294967295 0 0 0 0\nelement -0 00 0 0 0 0 0\n";
    let file = parse_scene(rt.alloc(), text)?;
    assert_eq!(rt; file.console.pixels, u32::MAX);
    assert_eq!(rt; file.items.len(), 3);
    let Some(Item::Element(element)) = file.items.get(1) else {
        return Err(Fail::new("no element"));
    };
    assert_eq!(rt; element.x, i32::MIN);
    assert_eq!(rt; element.y, i32::MAX);
    Ok(())
}

#[test]
fn no_console(rt: HostRuntime) -> Result<(), Fail> {
    let empty = parse_scene(rt.alloc(), b"");
    is_refused(&rt, empty, "line 1: the file has no console line")?;
    let blank = parse_scene(rt.alloc(), b"\n# nothing\n\t\r\n");
    is_refused(&rt, blank, "line 3: the file has no console line")
}

// The first line with a word, and what is said of it.
const BAD_CONSOLES: &str = "pixels 0 => the first line must be: console WIDTH HEIGHT composer PIXELS
console 1 2 3 4 => the first line must be: console WIDTH HEIGHT composer PIXELS
console# 1 1 composer 1 => WIDTH is missing
console 4294967296 1 composer 1 => WIDTH is not a number from 0 to 4294967295
console 1 1x composer 1 => HEIGHT is not a number from 0 to 4294967295
console 1 1 composer => PIXELS is missing
console 1 1 composer 1 1 => a word too many";

// A line after the console's, and what is said of it.
const BAD_LINES: &str = "console => a second console line
elements 0 => unknown word at the start of the line
element -2147483649 0 0 1 1 1 0 => X is not a number from -2147483648 to 2147483647
element 0 2147483648 0 1 1 1 0 => Y is not a number from -2147483648 to 2147483647
element 0 - 0 1 1 1 0 => Y is not a number from -2147483648 to 2147483647
element 0 0 -1 1 1 1 0 => FIRST is not a number from 0 to 4294967295
element 0 0 0 1 1 +1 0 => STRIDE is not a number from 0 to 4294967295
element 0 0 0 1 1 1 => FORMAT is missing
element 0 0 0 1 1 1 0 0 => a word too many
pixels => FIRST is missing
pixels 0 123456789 => a pixel is eight hex digits, or N*PIXEL
pixels 9 1234567g => a pixel is eight hex digits, or N*PIXEL
pixels 0 *12345678 => a pixel is eight hex digits, or N*PIXEL
pixels 3 12345678 12345678 => the pixels do not fit the pixel memory
pixels 1 4294967295*12345678 => the pixels do not fit the pixel memory";

#[test]
fn bad_lines(rt: HostRuntime) -> Result<(), Fail> {
    let heap = rt.alloc();
    let consoles = Cases {
        before: "\n# before\n",
        after: "\nconsole",
        number: 3,
        lines: BAD_CONSOLES,
    };
    are_refused(&rt, |text: &[u8]| parse_scene(heap, text), consoles)?;
    let lines = Cases {
        before: "console 1 1 composer 4\n#\n\n",
        after: "\nconsole",
        number: 4,
        lines: BAD_LINES,
    };
    are_refused(&rt, |text: &[u8]| parse_scene(heap, text), lines)
}
