//! The shared object, from its making to its close.
ghost use Rattle.std.specs.Prelude.{◌≡◌, ◌≢◌, ◌≤◌, [], ◌∷◌, ◌++◌, length, IfOk, MatchResult};
ghost use mathlib.Core.List.{IsPrefix};
ghost use Rattle.shared_object.specs.Histories.{BelongsTo, new_pass, most_calls};
ghost use Rattle.shared_object.specs.Answers.{Tries, Calls, IsClosed};

use crate::answer::Answer;
use crate::history::History;
use crate::kept::{Kept, MOST_CALLS, keep};
use crate::pass::Pass;
use crate::sequential::Sequential;
use crate::steps::{load_count, store_turn, take_turn};
use crate::turn::call_in_turn;
use crate::view::{ShareRule, View};
use atomic_table::Table;
use perf_base::NoMemory;
use std::alloc::Global;
use std::marker::Model;
use std::sync::Wait;

/// An object that threads call through a `&`. Contracts see it as its name and the object's key.
#[derive(Drop)]
pub struct Share<O: Sequential> {
    pub(crate) table: Table<
        Option<Kept<O, O::Call, O::Reply>>,
        View<O::Key, O::Call, O::Reply>,
        O::Key,
        ShareRule<O>,
        Global,
    >,
}

impl<O: Sequential> Model for Share<O> {
    ghost use Rattle.std.specs.Prelude.{◌≡◌};
    ghost use Rattle.shared_object.specs.Histories.{SharedId};

    ghost Value = { SharedId O.Key };

    ghost view = { λ s. record { table = s.table.shared.table_id; key = s.table.shared.key } };

    ghost invariant = { λ s. (s.table.shared.table_id.words ≡ 2) × (s.table.shared.table_id.slots ≡ 1) };
}

impl<O: Sequential> Share<O> {
    /// Shares an object to which no call was made, with room for 16,384 calls, and gives the first pass. Without
    /// memory the object is dropped.
    pub fn new(alloc: Global, object: O, key: &O::Key) -> Result<(Share<O>, Pass<O>), NoMemory>
        requires { O.after key.now object [] }
        ensures key { IfOk result (λ r. r.0.key ≡ key.now) }
        ensures pass { IfOk result (λ r. r.1 ≡ new_pass r.0) }
    {
        let kept = keep(alloc, object)?;
        let mut slots = Vec::new(alloc);
        slots.push(Some(kept))?;
        match Table::new(alloc, &[0, 0], slots, key) {
            Ok((table, seat)) => Ok((Share { table }, Pass { seat })),
            Err(_) => Err(NoMemory),
        }
    }

    /// Makes the call, if no other is under way. Else it answers Busy at once.
    pub fn try_call(&self, pass: &mut Pass<O>, call: &O::Call) -> Answer<O::Reply>
        requires together { BelongsTo pass.old self.now }
        requires fits { O.fits self.now.key call.now }
        ensures together { BelongsTo pass.new self.now }
        ensures answer { Tries (O.legal self.now.key) pass.old call.now pass.new result }
    {
        let table = &self.table.shared;
        let turn = take_turn(table, &mut pass.seat);
        if turn != 0 {
            return Answer::Busy { turn };
        }
        let answer = call_in_turn(table, &mut pass.seat, call);
        store_turn(table, &mut pass.seat);
        answer
    }

    /// Makes the call, and tries again while another is under way.
    pub fn call<W: Wait>(&self, rt: &W, pass: &mut Pass<O>, call: &O::Call) -> Answer<O::Reply>
        requires together { BelongsTo pass.old self.now }
        requires fits { O.fits self.now.key call.now }
        ensures together { BelongsTo pass.new self.now }
        ensures answer { Calls (O.legal self.now.key) pass.old call.now pass.new result }
    {
        for _ in rt.forever() {
            match self.try_call(pass, call) {
                Answer::Busy { turn: _ } => {}
                answer => return answer,
            }
        }
        unreachable!()
    }

    /// The number of calls so far, all of which the pass has then seen.
    pub fn look(&self, pass: &mut Pass<O>) -> u64
        requires { BelongsTo pass.old self.now }
        ensures count { result ≡ length pass.new.seen }
        ensures pass { pass.new ≡ record pass.old { seen = pass.new.seen } }
        ensures prefix { IsPrefix pass.old.seen pass.new.seen }
        ensures legal { O.legal self.now.key pass.new.seen }
        ensures room { length pass.new.seen ≤ most_calls }
    {
        load_count(&self.table.shared, &mut pass.seat)
    }

    /// Ends the sharing, and gives the history, to which it adds nothing. Where a call is under way it gives all back,
    /// with the word that its try found in the place of 0.
    pub fn close(self, pass: Pass<O>) -> Result<History<O>, (Share<O>, Pass<O>, u64)>
        requires { BelongsTo pass self }
        ensures { MatchResult result (IsClosed (O.legal self.key) pass) (λ r. (r.0 ≡ self) × (r.1 ≡ record pass { found = pass.found ++ r.2 ∷ [] }) × (r.2 ≢ 0)) }
    {
        let Pass { mut seat } = pass;
        let turn = take_turn(&self.table.shared, &mut seat);
        if turn != 0 {
            return Err((self, Pass { seat }, turn));
        }
        let Some(Kept { object: _, calls }) = self.table.shared.exchange(&mut seat, 0, None) else {
            unreachable!()
        };
        Ok(History { calls, seat })
    }
}
