//! Makes the script of N rounds, a load to measure by, exactly as it is defined here. Contracts see a script as the
//! record of what it says. Laws of the definition, each the contract of an empty function, say that the script can be
//! built, that its machine is covered, and how many lines and samples it has. It serves the program, which prints the
//! script or runs it, and the crate that sums up its report.
#![tactic(auto)]

mod laws;
mod lines;
mod parts;

pub use laws::{made_is_covered, made_is_script, made_lines, made_weight};
pub use parts::make;
