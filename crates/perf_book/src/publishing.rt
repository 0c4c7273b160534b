//! What is published on a page of a run that is watched.

ghost use Rattle.std.specs.Prelude.{◌≡◌, IfSome};
ghost use Rattle.report_spec.specs.Published.{look_of};
ghost use Rattle.perf_book.specs.Watching.{HasPublished, IsBehind, page_of, watched_by};

use crate::book::Book;
use perf_base::{EventNo, Sums};
use report_spec::{looks_of_later_acts_may_follow, one_more_act_adds_its_look};
use user_page::{Look, Page, Writer};

/// What publishes on a page what an event has counted.
#[derive(Drop)]
pub struct Publisher {
    pub writer: Writer,
    pub event: EventNo,
}

/// A look with these sums, after so many acts.
fn look_of(at: u64, sums: Sums) -> Look
    ensures { result ≡ look_of at sums }
{
    Look {
        at,
        count: sums.count,
        enabled: sums.enabled,
        running: sums.running,
    }
}

/// Publishes what the event has counted after the last act of a book, a line, where it is open then.
fn publish_on(page: &Page, book: &Book, publisher: &mut Publisher)
    requires page { publisher.old.writer.page ≡ page.now }
    requires behind { IsBehind book.now.script book.now.order publisher.old }
    ensures event { publisher.new.event ≡ publisher.old.event }
    ensures page { publisher.new.writer.page ≡ publisher.old.writer.page }
    ensures published { HasPublished book.now.script book.now.order publisher.new }
{
    one_more_act_adds_its_look();
    looks_of_later_acts_may_follow();
    if let Some(sums) = book.family(publisher.event) {
        let look = look_of(book.act_count(), sums);
        publisher.writer.publish(page, look);
    }
}

/// Where a run publishes what an event has counted: on a page, or nowhere.
pub trait Publishing {
    ghost use Rattle.std.specs.Prelude.{Option};
    ghost use Rattle.user_page.specs.Looks.{PageName};

    // The page, if there is one.
    ghost page: { Self → Option PageName };

    /// Publishes what the event has counted after the last act of a book, a line, where it is open then.
    fn publish(&self, book: &Book, publisher: &mut Option<Publisher>)
        requires page { page self.now ≡ page_of (watched_by publisher.old) }
        requires behind { IfSome publisher.old (IsBehind book.now.script book.now.order) }
        ensures watched { watched_by publisher.new ≡ watched_by publisher.old }
        ensures published { IfSome publisher.new (HasPublished book.now.script book.now.order) };
}

/// The place of a run that nobody watches.
pub struct Nowhere;

impl Publishing for Nowhere {
    ghost use Rattle.std.specs.Prelude.{None};

    ghost page = { λ _. None };

    fn publish(&self, _book: &Book, _publisher: &mut Option<Publisher>) {}
}

impl Publishing for Page {
    ghost use Rattle.std.specs.Prelude.{Some};

    ghost page = { λ p. Some p };

    fn publish(&self, book: &Book, publisher: &mut Option<Publisher>) {
        if let Some(publisher) = publisher {
            publish_on(self, book, publisher);
        }
    }
}
