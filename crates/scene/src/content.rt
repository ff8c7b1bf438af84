// What a scene file says.
use model::{Element, Size};
use text::PixelRun;

// The screen that the file is for; a recording's names its presenter too.
#[derive(Clone, Copy, PartialEq, Eq, Debug)]
pub struct Console {
    pub size: Size,
    // How many pixels the pixel memory has.
    pub pixels: u32,
}

#[derive(Clone, Copy, PartialEq, Eq, Debug)]
pub enum Item {
    // The places of the pixel memory from the first on hold the run.
    Fill { first: u32, run: PixelRun },
    Element(Element),
}

// The items stand in the order of the file, so that the lowest element comes first.
#[derive(Debug, Drop)]
pub struct SceneFile {
    pub console: Console,
    pub items: Vec<Item>,
}
