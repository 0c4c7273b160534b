//! The report of a run as text: the order, a line for each answer but a plain Ok, what each ring came to with a line
//! for each record, and the end; and, of the run of a made script, six lines that sum its report up. Contracts see the
//! text of the definitions, what is left of a run, and what a sink holds. It takes no memory, and serves the top call.
#![tactic(auto)]

mod answers;
mod laws;
mod line_words;
mod records;
mod reports;
mod rings;
mod said;
mod summary;
mod writing;

pub use laws::{made_has_no_look, made_is_complete, made_totals};
pub use reports::write_report;
pub use said::put_reply;
pub use summary::{Summary, Totals, summary_of};
pub use writing::write_summary;
