//! Trials of a module: what the recorded runs of a bench do not show.
#![tactic(auto)]

#[cfg(test)]
mod bench;
#[cfg(test)]
mod buffers;
#[cfg(test)]
mod hearing;
#[cfg(test)]
mod keeping;
#[cfg(test)]
mod matching;
