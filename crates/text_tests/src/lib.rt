// Tests of scene files and recordings.
#![tactic(auto)]

#[cfg(test)]
mod recordings;
#[cfg(test)]
mod refused;
#[cfg(test)]
mod scenes;
