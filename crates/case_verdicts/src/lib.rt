//! Whether the top call ends as a worked case expects: a case is a line of a list, and its text, its words and its
//! report are given. What a text stands for is printed too, and the printed text has to end as the text did. Contracts
//! see what a case allows of the definitions' report. It serves the program that runs the cases.
#![tactic(auto)]

mod again;
mod answer;
mod case;
mod judging;
mod printed;
mod tally;
mod verdict;

pub use case::{Case, Expected, parse_case, printed_too};
pub use judging::{run_text, run_words};
pub use tally::Tally;
pub use verdict::Verdict;
