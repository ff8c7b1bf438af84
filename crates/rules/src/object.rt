// An object that has no record but its place in the table of ids.

#[derive(Clone, Copy, PartialEq, Eq, Debug)]
pub enum ObjectKind {
    Display,
    Compositor,
    Subcompositor,
    // The place of its surface.
    Subsurface { surface: u8 },
    // Its surface has been unlinked; the place of that, while it lives.
    InertSubsurface { surface: Option<u8> },
}

#[derive(Clone, Copy, PartialEq, Eq, Debug)]
pub struct Object {
    pub client: u32,
    pub id: u32,
    pub kind: ObjectKind,
}
