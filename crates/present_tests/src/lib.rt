// Tests of presenters by examples, in a crate of their own since each is proved too.
#![tactic(auto)]

#[cfg(test)]
mod answers;
#[cfg(test)]
mod clipping;
#[cfg(test)]
mod memory;
