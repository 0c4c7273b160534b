//! What an object is that can be shared.
ghost use Rattle.std.specs.Prelude.{◌≡◌, ◌<◌, List, [], ◌∷◌, ◌++◌, length};
ghost use Rattle.shared_object.specs.Histories.{most_calls};

/// An object of one thread, which answers calls one after another.
pub trait Sequential: Drop {
    /// What the object was made of, and what its answers depend on beside the calls.
    type Key;

    type Call: Copy;

    type Reply: Copy;

    // The object is as after these calls.
    ghost after: { Self.Key → Self → List (Self.Call × Self.Reply) → Type 0 };

    // Each reply is the one that one thread gets for its call after the calls before it.
    ghost legal: { Self.Key → List (Self.Call × Self.Reply) → Type 0 };

    // The call may be made.
    ghost fits: { Self.Key → Self.Call → Type 0 };

    /// Makes one call.
    fn apply(&mut self, call: &Self::Call) -> Self::Reply
        requires { (key : Self.Key) × (calls : List (Self.Call × Self.Reply)) × (length calls < most_calls) × after key self.old calls × fits key call.now }
        ensures { (key : Self.Key) (calls : List (Self.Call × Self.Reply)) → length calls < most_calls → after key self.old calls → fits key call.now → after key self.new (calls ++ (call.now, result) ∷ []) × legal key (calls ++ (call.now, result) ∷ []) };

    // A list of no calls is legal.
    ghost legal_from_the_start: { (key : Self.Key) → legal key [] };
}
