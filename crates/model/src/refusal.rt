// The refusals that code makes, by what is wrong.

#[derive(Clone, Copy, PartialEq, Eq, Debug)]
pub enum Refusal {
    // A message has no header, or its header says another size.
    BadHeader,
    // The interface of the object lists no such opcode.
    UnlistedOpcode,
    // The arguments are not as many as the request takes.
    BadArguments,
    // A scene is to be shown while the output is dark.
    Dark,
    // A scene has too many elements, or one that no buffer of the pixel memory has.
    BadScene,
    // An output of 0 x 0 pixels is to be switched on.
    NoSize,
}
