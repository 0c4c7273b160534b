//! Tests that shared values cross threads, of the bits that are flags, and of seats against worked cases and a plain
//! search. Nothing of it is for callers.
#![tactic(auto)]

#[cfg(test)]
mod checks;
#[cfg(test)]
mod counters;
#[cfg(test)]
mod tests;
