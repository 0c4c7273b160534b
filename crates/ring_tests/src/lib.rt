//! Tests of rings, pages and records of words, and of what is sent and taken, some between two threads. Nothing of it
//! is for callers.
#![tactic(auto)]

#[cfg(test)]
mod checks;
#[cfg(test)]
mod pages;
#[cfg(test)]
mod records;
#[cfg(test)]
mod rings;
#[cfg(test)]
mod sends;
#[cfg(test)]
mod takes;
