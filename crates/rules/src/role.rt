// The role of a surface, if it has one; it never changes once it is given.

#[derive(Clone, Copy, PartialEq, Eq, Debug)]
pub enum Role {
    Root,
    Sub,
}
