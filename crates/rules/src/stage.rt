// How far the state that a callback was asked for with has come.

#[derive(Clone, Copy, PartialEq, Eq, Debug)]
pub enum Stage {
    Pending,
    Cached,
    Current,
}
