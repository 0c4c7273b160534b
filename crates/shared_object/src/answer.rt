//! What a call answers.

/// The answer to a call.
#[derive(Clone, Copy, PartialEq, Eq, Debug)]
pub enum Answer<R> {
    /// The call was made, and this is its reply.
    Done(R),
    /// Another call was under way: the try found this word in the place of 0. Nothing was done.
    Busy { turn: u64 },
    /// The history has no room for another call. Nothing was done.
    Full,
}
