//! Tests of streams, texts and their forms: what no clause says and no theorem of worked_theorems computes. Nothing of
//! it is for callers.
#![tactic(auto)]

#[cfg(test)]
mod acts;
#[cfg(test)]
mod attributes;
#[cfg(test)]
mod checks;
#[cfg(test)]
mod printing;
#[cfg(test)]
mod sinks;
#[cfg(test)]
mod streams;
#[cfg(test)]
mod tables;
