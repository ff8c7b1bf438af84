// Tests of reports by examples, in a crate of their own since each is proved too.
#![tactic(auto)]

#[cfg(test)]
mod tests;
