// An element of a scene: one buffer's pixels, placed on the output.

// Copied freely: a presenter is lent a slice of elements and may keep some of them.
// The format is a number, since a presenter has to refuse what no buffer has. Flat, since a scene
// lists the seven numbers so, and a presenter is handed them so.
#[derive(Clone, Copy, PartialEq, Eq, Debug, Default)]
pub struct Element {
    // The output column and row of the top left pixel.
    pub x: i32,
    pub y: i32,
    // The index of the top left pixel in the pixel memory.
    pub first: u32,
    pub width: u32,
    pub height: u32,
    // From one row to the next, in pixels.
    pub stride: u32,
    // 0 is ARGB8888, premultiplied; 1 is XRGB8888.
    pub format: u32,
}
