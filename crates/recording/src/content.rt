// What a recording says.
use model::Size;

#[derive(Clone, Copy, PartialEq, Eq, Debug)]
pub enum PresenterKind {
    Composer,
    Scanout,
}

// The screen that the calls were made for.
#[derive(Clone, Copy, PartialEq, Eq, Debug)]
pub struct Console {
    pub size: Size,
    pub presenter: PresenterKind,
    // How many pixels the pixel memory has.
    pub pixels: u32,
}

// One call with its arguments, each a field as it stands on the line.
#[derive(Debug, Drop)]
pub enum Call {
    Request {
        client: u32,
        message: Vec<u8>,
    },
    Buffer {
        client: u32,
        id: u32,
        first: u32,
        width: u32,
        height: u32,
        stride: u32,
        // A number as in an element.
        format: u32,
    },
    Root {
        client: u32,
        id: u32,
        x: i32,
        y: i32,
    },
    Paint {
        client: u32,
        id: u32,
        offset: u32,
        pixels: Vec<u32>,
    },
    Switch {
        on: bool,
    },
    Frame {
        time: u32,
    },
}

// A call, the line that it stands on, counted from 1, and how many places its list of events has.
#[derive(Debug, Drop)]
pub struct Entry {
    pub line: usize,
    pub places: u32,
    pub call: Call,
}

// The entries stand in the order of the file.
#[derive(Debug, Drop)]
pub struct Recording {
    pub console: Console,
    pub console_line: usize,
    pub entries: Vec<Entry>,
}

// What a line after the console's says.
#[derive(Debug, Drop)]
pub(crate) enum Line {
    // There is no word on it.
    Empty,
    // How many places the event lists of later calls have.
    Places(u32),
    Call(Call),
}
