//! What a run needs, and doing the order of a script.

ghost use Rattle.std.specs.Prelude.{◌≡◌, ℕ, ◌*◌, ◌<◌, ◌≤◌, [], Err, IfErr, IfOk, OnOk, Some, length, slice_get};
ghost use Rattle.perf_base.specs.Scripts.{IsCovered};
ghost use Rattle.perf_base.specs.Weight.{weight};
ghost use Rattle.sample_ring.specs.InEnds.{InEnd};
ghost use Rattle.stage_spec.specs.Order.{IsComplete};
ghost use Rattle.work_account.specs.Ends.{AreTogether};
ghost use Rattle.machine.specs.Readers.{AreFollowing};
ghost use Rattle.perf_book.specs.Ending.{IsEnd};
ghost use Rattle.perf_top.specs.Outcome.{HasBadLook};

use perf_ask::Status;
use perf_base::{NoMemory, RingNo, Script};
use perf_book::{Book, OrderFault};
use run_end::Ended;
use sample_ring::{Ins, Rings, make_rings};
use std::alloc::Global;
use std::marker::Model;

/// A look at a ring's tail that can't have been made: the number of its act in the order, from 0, the ring, the last
/// place seen, the head and the place given, in bytes.
#[derive(Clone, Copy, PartialEq, Eq, Debug)]
pub struct BadLook {
    pub index: u32,
    pub ring: RingNo,
    pub last: u64,
    pub head: u64,
    pub given: u64,
}

impl BadLook {
    /// The answer that names it.
    pub fn status(self) -> Status
        ensures { result ≡ Status.BadOrder self.index self.ring self.last self.head self.given }
    {
        Status::BadOrder {
            index: self.index,
            ring: self.ring,
            last: self.last,
            head: self.head,
            given: self.given,
        }
    }
}

/// Takes all memory that a replay of a script needs: a ring's reader has room for 18 words for each unit of the
/// script's weight. A run by threads needs sheets too, and a watched one a page.
fn take_parts(alloc: Global, script: Script) -> Result<(Rings, Ins, Book), NoMemory>
    requires covered { IsCovered script }
    requires light { weight script ≤ 65536 }
    requires short { length script.order ≤ 4194304 }
    ensures script { IfOk result (λ r. r.2.script ≡ script) }
    ensures empty { IfOk result (λ r. r.2.order ≡ []) }
    ensures together { IfOk result (λ r. AreTogether r.0 r.2.machine.outs) }
    ensures following { IfOk result (λ r. AreFollowing (9 * weight script) r.2.machine.outs r.1) }
    // No reader has taken or released anything.
    ensures unread { IfOk result (λ r. (place : ℕ) (i : InEnd) → slice_get r.1.readers place ≡ Some (Some i) → (i.records ≡ 0) × (i.consumer.released ≡ 0)) }
{
    let words = 18 * script.weight() as usize;
    let (rings, outs, ins) = make_rings(alloc, script.rings(), words)?;
    Ok((rings, ins, Book::new(alloc, script, outs)?))
}

/// The look of this number at a place that is not lawful. Each line of a complete order is there.
fn bad_look(index: usize, fault: OrderFault) -> BadLook
    requires line { fault ≡ OrderFault.NoLine → ⊥ }
    requires few { index < 4294967296 }
    ensures fault { fault ≡ OrderFault.BadSeen result.ring result.last result.head result.given }
    ensures index { result.index ≡ index }
{
    match fault {
        OrderFault::BadSeen {
            ring,
            last,
            head,
            given,
        } => BadLook {
            index: index as u32,
            ring,
            last,
            head,
            given,
        },
        OrderFault::NoLine => unreachable!(),
    }
}

/// Does the acts of a complete order, one after the other, up to the first look that is not lawful.
fn fill(book: &mut Book, rings: &Rings, ins: &mut Ins) -> Result<(), BadLook>
    requires complete { IsComplete book.old.script book.old.script.order }
    requires short { length book.old.script.order ≤ 4194304 }
    requires empty { book.old.order ≡ [] }
    requires together { AreTogether rings.now book.old.machine.outs }
    requires following { AreFollowing (9 * weight book.old.script) book.old.machine.outs ins.old }
    ensures script { book.new.script ≡ book.old.script }
    ensures bad { (b : BadLook) → result ≡ Err b → HasBadLook book.old.script b.index b.ring b.last b.head b.given }
    ensures done { OnOk result (book.new.order ≡ book.old.script.order) }
    ensures together { AreTogether rings.now book.new.machine.outs }
    ensures following { AreFollowing (9 * weight book.new.script) book.new.machine.outs ins.new }
{
    for index in 0..book.script().order().len() {
        let act = book.script().order()[index];
        if let Err(fault) = book.act(rings, ins, act) {
            return Err(bad_look(index, fault));
        }
    }
    Ok(())
}

/// What is left of a book whose whole order was done.
fn finish_book(rings: Rings, ins: Ins, book: Book) -> Ended
    requires order { book.order ≡ book.script.order }
    requires together { AreTogether rings book.machine.outs }
    requires following { AreFollowing (9 * weight book.script) book.machine.outs ins }
    ensures script { result.script ≡ book.script }
    ensures order { result.order ≡ book.script.order }
    ensures ended { IsEnd result }
{
    book.finish(rings, ins)
}

/// All that a replay of a script needs, taken before its first act. Contracts see the script.
#[derive(Drop)]
pub struct Ready {
    pub rings: Rings,
    pub ins: Ins,
    pub book: Book,
}

impl Model for Ready {
    ghost use Rattle.std.specs.Prelude.{◌≡◌, ℕ, ◌*◌, ◌≤◌, [], Some, length, slice_get};
    ghost use Rattle.perf_base.specs.Scripts.{Scripted};
    ghost use Rattle.perf_base.specs.Weight.{weight};
    ghost use Rattle.sample_ring.specs.InEnds.{InEnd};
    ghost use Rattle.work_account.specs.Ends.{AreTogether};
    ghost use Rattle.machine.specs.Readers.{AreFollowing};

    ghost Value = { Scripted };

    ghost view = { λ r. r.book.script };

    ghost invariant = { λ r. (length r.book.script.order ≤ 4194304) × (r.book.order ≡ []) × AreTogether r.rings r.book.machine.outs
        × AreFollowing (9 * weight r.book.script) r.book.machine.outs r.ins
        × ((place : ℕ) (i : InEnd) → slice_get r.ins.readers place ≡ Some (Some i) → (i.records ≡ 0) × (i.consumer.released ≡ 0)) };
}

impl Ready {
    /// Takes all memory that a replay of a script needs. A run by threads needs sheets too, and a watched one a page.
    pub fn new(alloc: Global, script: Script) -> Result<Ready, NoMemory>
        requires covered { IsCovered script }
        requires light { weight script ≤ 65536 }
        requires short { length script.order ≤ 4194304 }
        ensures { IfOk result (λ ready. ready ≡ script) }
    {
        let (rings, ins, book) = take_parts(alloc, script)?;
        Ok(Ready { rings, ins, book })
    }

    /// Does the whole order of the script, which is complete, up to the first look that is not lawful.
    pub fn replay(self) -> Result<Replayed, BadLook>
        requires complete { IsComplete self self.order }
        ensures done { IfOk result (λ replayed. replayed ≡ self) }
        ensures bad { IfErr result (λ look. HasBadLook self look.index look.ring look.last look.head look.given) }
    {
        let Ready {
            rings,
            mut ins,
            mut book,
        } = self;
        match fill(&mut book, &rings, &mut ins) {
            Err(look) => Err(look),
            Ok(()) => Ok(Replayed { rings, ins, book }),
        }
    }
}

/// A run of a script whose whole order was done. Contracts see the script.
#[derive(Drop)]
pub struct Replayed {
    rings: Rings,
    ins: Ins,
    pub book: Book,
}

impl Model for Replayed {
    ghost use Rattle.std.specs.Prelude.{◌≡◌, ◌*◌};
    ghost use Rattle.perf_base.specs.Scripts.{Scripted};
    ghost use Rattle.perf_base.specs.Weight.{weight};
    ghost use Rattle.work_account.specs.Ends.{AreTogether};
    ghost use Rattle.machine.specs.Readers.{AreFollowing};

    ghost Value = { Scripted };

    ghost view = { λ r. r.book.script };

    ghost invariant = { λ r. (r.book.order ≡ r.book.script.order) × AreTogether r.rings r.book.machine.outs
        × AreFollowing (9 * weight r.book.script) r.book.machine.outs r.ins };
}

impl Replayed {
    /// What is left of it.
    pub fn finish(self) -> Ended
        ensures script { result.script ≡ self }
        ensures order { result.order ≡ self.order }
        ensures ended { IsEnd result }
    {
        let Replayed { rings, ins, book } = self;
        finish_book(rings, ins, book)
    }
}
