// What a client asks of an object: one variant for each request of each interface.

// Objects are named by their ids.
#[derive(Clone, Copy, PartialEq, Eq, Debug)]
pub enum Request {
    CreateSurface {
        id: u32,
    },
    GetSubsurface {
        id: u32,
        surface: u32,
        parent: u32,
    },
    SurfaceDestroy,
    // The surface is to have no buffer where none is named.
    Attach {
        buffer: Option<u32>,
        x: i32,
        y: i32,
    },
    Damage {
        x: i32,
        y: i32,
        width: i32,
        height: i32,
    },
    Frame {
        callback: u32,
    },
    Commit,
    SubsurfaceDestroy,
    SetPosition {
        x: i32,
        y: i32,
    },
    PlaceAbove {
        sibling: u32,
    },
    PlaceBelow {
        sibling: u32,
    },
    SetSync,
    SetDesync,
    BufferDestroy,
}
