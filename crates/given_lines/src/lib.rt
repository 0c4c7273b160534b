//! Lines that a program is given one at a time, after a head. A head is a script of declarations alone: its machine,
//! its kinds and its tasks. A given line begins with its processor or tool, as in `t0 read 0` or `p1 tick`. Contracts
//! say by the definitions of the language which script a head stands for, which line a given line says, and for which
//! reason another text is refused. It serves a program that answers line by line.

#![tactic(auto)]

mod given;
mod heads;

pub use given::{Given, read_given};
pub use heads::{Head, read_head};
