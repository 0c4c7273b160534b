//! The plain types that every other crate shares: numbers, attributes, lines of a script, acts, answers
//! and the script itself. Contracts see the small lists as lists, the flags as a number, and a script as
//! the record of what it says. It serves every crate of the repository.
#![tactic(auto)]

mod acts;
mod answers;
mod attr;
mod flags;
mod lines;
mod lists;
mod numbers;
mod reasons;
mod reply;
mod script;
mod standing;
mod steps;
mod stored;
mod weight;

pub use acts::{Act, Actor};
pub use answers::Answers;
pub use attr::{Attr, CpuSel, Kind, TaskSel};
pub use flags::AttrFlags;
pub use lines::{CpuLine, KindLine, Mode, PmuLine, ReaderLine, ToolLine, Work};
pub use lists::{Filling, Name, SeatList, ShortList, Tight, Words};
pub use numbers::{CpuNo, CpuSet, EventNo, Key, NoMemory, RingNo, TaskNo, ToolNo};
pub use reasons::{Reason, SReason};
pub use reply::{Answer, Reply, Sums};
pub use script::Script;
pub use standing::{Cause, Context, Own, Rule, Standing, Why};
pub use steps::Steps;
