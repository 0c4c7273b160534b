//! Definitions of texts: how acts are written, which text stands for which script, and which line of another text
//! is refused for which reason. It has no code but an empty function for its law. It serves the readers and printers
//! of scripts, and the top call.
#![tactic(auto)]

mod laws;

pub use laws::script_grows_by_forms;
