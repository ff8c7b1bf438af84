// The interfaces that an object of a client may have, by their names in Wayland without `wl_`.

#[derive(Clone, Copy, PartialEq, Eq, Debug)]
pub enum Interface {
    Display,
    Compositor,
    Subcompositor,
    Surface,
    Subsurface,
    Buffer,
    Callback,
}
