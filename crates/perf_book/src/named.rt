//! The book of a run under its lock.

ghost use Rattle.std.specs.Prelude.{◌≡◌, ◌↔◌, IfSome, IsTrue, [], ◌∷◌, ◌++◌, List};
ghost use Rattle.perf_base.specs.declared.acts.Act.{Act};
ghost use Rattle.machine.specs.Leading.{HasLine, act_of, next_step};
ghost use Rattle.perf_book.specs.Book.{AreLooksOf, IsBooked};
ghost use Rattle.perf_book.specs.Running.{IsUnderWay};
ghost use Rattle.perf_book.specs.Sheets.{IsReady, goes_by_plan};
ghost use Rattle.perf_book.specs.Watching.{HasPublished, page_of, watched_by};
ghost use Rattle.work_account.specs.Ends.{AreTogether};

use crate::book::Book;
use crate::publishing::{Publisher, Publishing};
use cpu_sched::Sheet;
use perf_base::{Actor, Steps};
use report_spec::looks_at_rings_publish_none;
use sample_ring::Rings;
use std::marker::{Brand, Model, PhantomData};
use std::sync::ledger::Ledger;

/// Which run it is: its script as contracts see it, and its rings; and where it is published what an event has counted,
/// the page and the event. Each call of a program picks it.
pub trait Naming {
    ghost use Rattle.std.specs.Prelude.{Option};
    ghost use Rattle.perf_base.specs.declared.numbers.EventNo.{EventNo};
    ghost use Rattle.perf_base.specs.Scripts.{Scripted};
    ghost use Rattle.sample_ring.specs.RingLists.{RingList};
    ghost use Rattle.user_page.specs.Looks.{PageName};

    ghost script: { Scripted };

    ghost rings: { RingList };

    ghost watched: { Option (PageName × EventNo) };
}

impl Naming for Brand {
    ghost use Rattle.std.specs.Prelude.{[], None};
    ghost use Rattle.perf_base.specs.Scripts.{empty_script};

    ghost script = { empty_script 1 };

    ghost rings = { record { numbers = []; tables = [] } };

    ghost watched = { None };
}

/// The book under its lock, by the name of its run. Its type keeps the run's script and rings, and that its order is
/// one that a run makes and ends with a line; and where the run is watched, that just the looks of that order are
/// published.
#[derive(Drop)]
pub struct Named<J: Naming> {
    book: Book,
    publisher: Option<Publisher>,
    of: PhantomData<J>,
}

impl<J: Naming> Model for Named<J> {
    ghost use Rattle.std.specs.Prelude.{◌≡◌, IfSome};
    ghost use Rattle.work_account.specs.Ends.{AreTogether};
    ghost use Rattle.perf_book.specs.Book.{Booked};
    ghost use Rattle.perf_book.specs.Codes.{booked_code};
    ghost use Rattle.perf_book.specs.Running.{IsUnderWay};
    ghost use Rattle.perf_book.specs.Watching.{HasPublished, watched_by};

    ghost Value = { Booked };

    ghost coded = { booked_code };

    ghost view = { λ n. n.book };

    ghost invariant = { λ n. (n.book.script ≡ J.script) × AreTogether J.rings n.book.machine.outs × IsUnderWay n.book.order
        × (watched_by n.publisher ≡ J.watched) × IfSome n.publisher (HasPublished n.book.script n.book.order) };
}

/// Does the next line of an actor that has one left, in a book whose order is one that a run makes and ends with a
/// line: so it is then. Where the line after it may go by a plan, its brief is on the sheet then.
pub fn advance_one<L: Ledger>(
    book: &mut Book,
    rings: &Rings,
    actor: Actor,
    sheet: &mut Sheet,
    tests: &mut Steps<L>,
)
    requires together { AreTogether rings.now book.old.machine.outs }
    requires under_way { IsUnderWay book.old.order }
    requires line { HasLine book.old.script book.old.machine actor }
    requires sheet { IsReady sheet.old }
    ensures script { book.new.script ≡ book.old.script }
    ensures order { (looks : List Act) × AreLooksOf actor book.old.order looks × (book.new.order ≡ book.old.order ++ (looks ++ act_of actor ∷ [])) }
    ensures together { AreTogether rings.now book.new.machine.outs }
    ensures under_way { IsUnderWay book.new.order }
    ensures sound { IsBooked book.new }
{
    book.do_next_line(rings, actor, sheet, tests);
    book.prepare_by_plan(actor, sheet);
}

impl<J: Naming> Named<J> {
    /// A book whose lines are all still to be done, by its name.
    pub fn new(book: Book, publisher: Option<Publisher>) -> Named<J>
        requires script { book.script ≡ J.script }
        requires together { AreTogether J.rings book.machine.outs }
        requires empty { book.order ≡ [] }
        requires watched { watched_by publisher ≡ J.watched }
        requires published { IfSome publisher (HasPublished book.script book.order) }
        ensures { result ≡ book }
    {
        Named {
            book,
            publisher,
            of: PhantomData,
        }
    }

    /// The book, and what publishes of it.
    pub fn into_parts(self) -> (Book, Option<Publisher>)
        ensures book { result.0 ≡ self }
        ensures script { result.0.script ≡ J.script }
        ensures together { AreTogether J.rings result.0.machine.outs }
        ensures under_way { IsUnderWay result.0.order }
        ensures watched { watched_by result.1 ≡ J.watched }
        ensures published { IfSome result.1 (HasPublished result.0.script result.0.order) }
    {
        (self.book, self.publisher)
    }

    /// Whether an actor has a line left.
    pub fn has_line(&self, actor: Actor) -> bool
        ensures line { IsTrue result ↔ HasLine self.now.script self.now.machine actor }
        ensures sound { IsBooked self.now }
    {
        self.book.has_line(actor)
    }

    /// Does the next line of an actor that has one left. Where the run is watched, it publishes what the event has
    /// counted then.
    pub fn advance<P: Publishing, L: Ledger>(
        &mut self,
        rings: &Rings,
        page: &P,
        actor: Actor,
        sheet: &mut Sheet,
        tests: &mut Steps<L>,
    )
        requires rings { rings.now ≡ J.rings }
        requires page { P.page page.now ≡ page_of J.watched }
        requires line { HasLine self.old.script self.old.machine actor }
        requires sheet { IsReady sheet.old }
        ensures script { self.new.script ≡ self.old.script }
        ensures order { (looks : List Act) × AreLooksOf actor self.old.order looks × (self.new.order ≡ self.old.order ++ (looks ++ act_of actor ∷ [])) }
        ensures sound { IsBooked self.new }
    {
        looks_at_rings_publish_none();
        advance_one(&mut self.book, rings, actor, sheet, tests);
        page.publish(&self.book, &mut self.publisher);
    }

    /// Whether an actor's next line may go by a plan: it is a processor's, and not work.
    pub fn goes_by_plan(&self, actor: Actor) -> bool
        ensures { result ≡ goes_by_plan (next_step self.now.script self.now.machine actor) }
    {
        self.book.goes_by_plan(actor)
    }

    /// Does the next line of an actor, where it has one left. It answers whether the line after it may go by a plan.
    pub fn advance_if<P: Publishing, L: Ledger>(
        &mut self,
        rings: &Rings,
        page: &P,
        actor: Actor,
        sheet: &mut Sheet,
        tests: &mut Steps<L>,
    ) -> bool
        requires rings { rings.now ≡ J.rings }
        requires page { P.page page.now ≡ page_of J.watched }
        requires sheet { IsReady sheet.old }
        ensures plan { result ≡ goes_by_plan (next_step self.new.script self.new.machine actor) }
        ensures line { HasLine self.old.script self.old.machine actor → (looks : List Act) × AreLooksOf actor self.old.order looks
            × (self.new.order ≡ self.old.order ++ (looks ++ act_of actor ∷ [])) }
        ensures none { (HasLine self.old.script self.old.machine actor → ⊥) → self.new ≡ self.old }
    {
        if self.has_line(actor) {
            self.advance(rings, page, actor, sheet, tests);
        }
        self.goes_by_plan(actor)
    }
}
