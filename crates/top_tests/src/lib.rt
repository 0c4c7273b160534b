//! Tests of what threads share, of the book of a run and of the top call: what no clause says of answers, of threads,
//! of plans made ahead and of ample memory. They are one crate, since tests link all code below them. Nothing of it is
//! for callers.
#![tactic(auto)]

#[cfg(test)]
mod calling;
#[cfg(test)]
mod checks;
#[cfg(test)]
mod late_open_tests;
#[cfg(test)]
mod machines;
#[cfg(test)]
mod objects;
#[cfg(test)]
mod planning_tests;
#[cfg(test)]
mod processor_tests;
#[cfg(test)]
mod signal;
#[cfg(test)]
mod tests;
#[cfg(test)]
mod thread_tests;
#[cfg(test)]
mod watch_tests;
#[cfg(test)]
mod watching;
