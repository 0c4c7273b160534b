//! What is left of a run.

ghost use Rattle.std.specs.Prelude.{◌≡◌, [], All, map};
ghost use Rattle.stage_spec.specs.Order.{IsCounted};
ghost use Rattle.stage_spec.specs.Replies.{lines_from};
ghost use Rattle.sample_ring.specs.RingLists.{HasReader};
ghost use Rattle.run_end.specs.Ended.{HasTakenAll, IsRan, words_in};

use perf_base::{Act, Answers, RingNo, Script};
use sample_ring::{Ins, RingNumbers};
use std::marker::Model;

/// What a ring came to: which it is, and where its head and the last tail seen are, in bytes from the start of the
/// stream, how many of its records were lost in all, and how many of them no LOST record has stated.
#[derive(Clone, Copy, PartialEq, Eq, Debug)]
pub struct RingEnd {
    pub ring: RingNo,
    pub numbers: RingNumbers,
}

/// A run that has ended: its script, the order in which its lines were done, the answer to each line, with the actor
/// whose line it is and the line's number among that actor's lines, from 0, what each ring came to, and the rings'
/// readers, which have taken all that was written.
#[derive(Drop)]
pub struct Ended {
    script: Script,
    order: Vec<Act>,
    answers: Answers,
    ends: Vec<RingEnd>,
    ins: Ins,
}

impl Model for Ended {
    ghost use Rattle.run_end.specs.Ended.{Ran, IsRan};

    ghost Value = { Ran };

    ghost view = { λ e. record { script = e.script; order = e.order.items; answers = e.answers.items; ends = e.ends.items; ins = e.ins } };

    ghost invariant = { λ e. IsRan (record { script = e.script; order = e.order.items; answers = e.answers.items; ends = e.ends.items; ins = e.ins }) };
}

impl Ended {
    /// A run of a script that has ended.
    pub fn new(
        script: Script,
        order: Vec<Act>,
        answers: Answers,
        ends: Vec<RingEnd>,
        ins: Ins,
    ) -> Ended
        requires counted { IsCounted script order.items }
        requires lines { map (λ a. (a.actor, a.number)) answers.items ≡ lines_from [] order.items }
        requires rings { map (λ e. e.ring) ends.items ≡ map (λ r. r.0) script.rings }
        requires taken { All (HasTakenAll ins) ends.items }
        ensures { result ≡ record { script = script; order = order.items; answers = answers.items; ends = ends.items; ins = ins } }
    {
        Ended {
            script,
            order,
            answers,
            ends,
            ins,
        }
    }

    /// Its script.
    pub fn script(&self) -> &Script
        ensures { result.now ≡ self.now.script }
    {
        &self.script
    }

    /// The order in which its lines were done, with the looks at rings between them.
    pub fn order(&self) -> &[Act]
        ensures { result.now ≡ self.now.order }
    {
        self.order.as_slice()
    }

    /// The answers, one to each line that was done, in their order.
    pub fn answers(&self) -> &Answers
        ensures { result.now.items ≡ self.now.answers }
    {
        &self.answers
    }

    /// What the rings came to, by rising number.
    pub fn ring_ends(&self) -> &[RingEnd]
        ensures ends { result.now ≡ self.now.ends }
        ensures sound { IsRan self.now }
    {
        self.ends.as_slice()
    }

    /// All words that were written on a ring whose reader is there.
    pub fn words(&self, ring: RingNo) -> &[u64]
        requires { HasReader self.now.ins ring }
        ensures { result.now ≡ words_in self.now.ins ring }
    {
        self.ins.lent(ring).words()
    }
}
