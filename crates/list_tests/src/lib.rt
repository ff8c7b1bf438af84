// The search on two kinds of records and on a text, and tests of lists.
#![tactic(auto)]

mod records;
#[cfg(test)]
mod tests;
mod texts;
