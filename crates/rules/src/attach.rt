// What a surface's pending or cached state attaches: no Option of an Option, since null is not nothing.

#[derive(Clone, Copy, PartialEq, Eq, Debug)]
pub enum Attach {
    Nothing,
    // The surface is to have no buffer.
    Null,
    // The buffer record at that place.
    Buffer { place: u8 },
}
