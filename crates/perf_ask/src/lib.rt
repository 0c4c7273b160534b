//! What a call of the program is asked for, and what it reads for that: the words, the script that a source has left,
//! and the answers of a call with their numbers and their notes. It serves the top call.
#![tactic(auto)]

mod asked;
mod collecting;
mod loading;
mod notes;
mod status;
mod text;

pub use asked::{Asked, Rounds, Watching, asked_by, words_ask_one_thing};
pub use collecting::words_of;
pub use loading::{Loaded, load};
pub use notes::put_note;
pub use status::Status;
