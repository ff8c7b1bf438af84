// Tests of messages by bytes as libwayland sends them, in a crate of their own since each is proved too.
#![tactic(auto)]

#[cfg(test)]
mod answer;
#[cfg(test)]
mod faults;
#[cfg(test)]
mod once;
#[cfg(test)]
mod requests;
