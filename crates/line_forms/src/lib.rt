//! The form of a line of a script. Contracts see a line as its words, and a form as what the definitions of the
//! language call so, with numbers of any size that can be spelled. It serves the reader of scripts, and whoever reads
//! an act from its text or bytes from their digits.

#![tactic(auto)]

mod acts;
mod cpu_forms;
mod declarations;
mod forms;
mod keyword;
mod leaves;
mod lists;
mod reading;
mod shapes;
mod tool_forms;
mod words;

pub use acts::{Acts, SpelledAct, spelled_act};
pub use forms::{Asked, CpuForm, Form, Hit, Opening, ToolForm, Version, Working};
pub use lists::{AttrBytes, Hits, MOST_BYTES, read_bytes};
pub use reading::read_form;
pub use words::cut;
