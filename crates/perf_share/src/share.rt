//! The shared machine, from its making to its close.

ghost use Rattle.std.specs.Prelude.{◌≡◌, ◌≢◌, ◌≤◌, ◌↔◌, [], ◌∷◌, ◌++◌, length, IfOk, IsTrue, MatchResult};
ghost use mathlib.Core.List.{IsPrefix};
ghost use Rattle.perf_base.specs.Scripts.{IsCovered};
ghost use Rattle.shared_object.specs.Answers.{Calls, IsClosed, Tries};
ghost use Rattle.shared_object.specs.Histories.{BelongsTo, most_calls, new_pass};
ghost use Rattle.perf_share.specs.Calls.{AreLegal, Fits};

use crate::call::Call;
use crate::fitting::CallLimits;
use crate::pass::Pass;
use crate::served::{History, Served, serve};
use perf_base::{NoMemory, Reply, Script};
use shared_object::Answer;
use std::alloc::Global;
use std::marker::Model;
use std::sync::Wait;

/// A machine that threads call through a `&`. Contracts see it as its name and its script.
#[derive(Drop)]
pub struct Share {
    pub(crate) share: shared_object::Share<Served>,
    limits: CallLimits,
}

impl Model for Share {
    ghost use Rattle.perf_base.specs.Scripts.{Scripted};
    ghost use Rattle.shared_object.specs.Histories.{SharedId};
    ghost use Rattle.perf_share.specs.Sharing.{IsSharing};

    ghost Value = { SharedId Scripted };

    ghost view = { λ s. s.share };

    ghost invariant = { λ s. IsSharing s.share s.limits };
}

impl Share {
    /// Shares the machine of a script without rings, each of whose processors is of a PMU, before its first call, and
    /// gives the first pass. The script's own lines are not done: the calls give the lines. It takes all memory that
    /// the calls need, and room for 16,384 of them, and fails only where there is not so much.
    pub fn new(alloc: Global, script: &Script) -> Result<(Share, Pass), NoMemory>
        requires covered { IsCovered script.now }
        requires rings { script.now.rings ≡ [] }
        ensures key { IfOk result (λ r. r.0.key ≡ script.now) }
        ensures pass { IfOk result (λ r. r.1 ≡ new_pass r.0) }
    {
        let served = serve(alloc, script)?;
        let limits = CallLimits::of(script);
        let (share, pass) = shared_object::Share::new(alloc, served, script)?;
        Ok((Share { share, limits }, Pass { pass }))
    }

    /// Whether a call may be made: it maps no ring, its numbers keep the limits on lines, and its processors and kinds
    /// are the script's.
    pub fn fits(&self, call: &Call) -> bool
        ensures { IsTrue result ↔ Fits self.now.key call.now }
    {
        self.limits.has(call)
    }

    /// Makes the call, if no other is under way. Else it answers Busy at once. It takes no memory.
    pub fn try_call(&self, pass: &mut Pass, call: &Call) -> Answer<Reply>
        requires together { BelongsTo pass.old self.now }
        requires fits { Fits self.now.key call.now }
        ensures together { BelongsTo pass.new self.now }
        ensures answer { Tries (AreLegal self.now.key) pass.old call.now pass.new result }
    {
        self.share.try_call(&mut pass.pass, call)
    }

    /// Makes the call, and tries again while another is under way: it may wait.
    pub fn call<W: Wait>(&self, rt: &W, pass: &mut Pass, call: &Call) -> Answer<Reply>
        requires together { BelongsTo pass.old self.now }
        requires fits { Fits self.now.key call.now }
        ensures together { BelongsTo pass.new self.now }
        ensures answer { Calls (AreLegal self.now.key) pass.old call.now pass.new result }
    {
        self.share.call(rt, &mut pass.pass, call)
    }

    /// The number of calls so far, all of which the pass has then seen.
    pub fn look(&self, pass: &mut Pass) -> u64
        requires { BelongsTo pass.old self.now }
        ensures count { result ≡ length pass.new.seen }
        ensures pass { pass.new ≡ record pass.old { seen = pass.new.seen } }
        ensures prefix { IsPrefix pass.old.seen pass.new.seen }
        ensures legal { AreLegal self.now.key pass.new.seen }
        ensures room { length pass.new.seen ≤ most_calls }
    {
        self.share.look(&mut pass.pass)
    }

    /// Ends the sharing, and gives the history, to which it adds nothing. Where a call is under way it gives all back,
    /// with the word that its try found in the place of 0.
    pub fn close(self, pass: Pass) -> Result<History, (Share, Pass, u64)>
        requires { BelongsTo pass self }
        ensures { MatchResult result (IsClosed (AreLegal self.key) pass) (λ r. (r.0 ≡ self) × (r.1 ≡ record pass { found = pass.found ++ r.2 ∷ [] }) × (r.2 ≢ 0)) }
    {
        let Share { share, limits } = self;
        match share.close(pass.pass) {
            Ok(history) => Ok(history),
            Err((share, pass, turn)) => Err((Share { share, limits }, Pass { pass }, turn)),
        }
    }
}
