// A buffer record, flat as an element is.

#[derive(Clone, Copy, PartialEq, Eq, Debug)]
pub struct Buffer {
    pub client: u32,
    // None once the object has ended.
    pub id: Option<u32>,
    pub first: u32,
    pub width: u32,
    pub height: u32,
    pub stride: u32,
    // A number as in an element, since each scene makes an element of the record.
    pub format: u32,
}
