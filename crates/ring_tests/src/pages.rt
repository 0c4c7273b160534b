//! A page by one caller, and a page between two threads.
ghost use Rattle.std.specs.Prelude.{◌≡◌, ◌+◌, ◌*◌, ◌^◌, ◌<◌, IfSome};
ghost use Rattle.user_page.specs.Looks.{last_look};

use crate::checks::{check, check_eq};
use std::process::Abort;
use std::test::Fail;
use std::thread::join;
use user_page::{Look, Page, Watcher, Writer, meet};

const LOOKS: u64 = 1_000_000;

// A look whose numbers belong together.
fn look_at(at: u64) -> Look
    requires { at < 2 ^ 32 }
    ensures { result ≡ record { at = at; count = 3 * at; enabled = 5 * at; running = 7 * at } }
{
    Look {
        at,
        count: 3 * at,
        enabled: 5 * at,
        running: 7 * at,
    }
}

// Publishes so many looks behind the one of `at` acts.
fn publish_looks(page: &Page, writer: &mut Writer, at: u64, count: u64)
    requires page { writer.old.page ≡ page.now }
    requires last { IfSome (last_look writer.old.published) (λ last. last.at ≡ at) }
    requires below { at + count < 2 ^ 32 }
    ensures page { writer.new.page ≡ page.now }
    ensures last { IfSome (last_look writer.new.published) (λ last. last.at ≡ at + count) }
{
    for i in 0..count {
        writer.publish(page, look_at(at + i + 1));
    }
}

// A value of this type may go to another thread.
fn crosses<T: Send>(value: T) -> T
    ensures { result ≡ value }
{
    value
}

// A value of this type may be seen by several threads.
fn is_shared<T: Sync>(_value: &T) {}

// Each row publishes so many looks, and then a look is of so many acts. Answers the last look's acts.
fn check_rows(rt: &impl Abort, page: &Page, writer: &mut Writer, watcher: &mut Watcher) -> u64
    requires writer { writer.old.page ≡ page.now }
    requires watcher { watcher.old.page ≡ page.now }
    requires last { IfSome (last_look writer.old.published) (λ last. last.at ≡ 0) }
    ensures writer { writer.new.page ≡ page.now }
    ensures watcher { watcher.new.page ≡ page.now }
    ensures last { IfSome (last_look writer.new.published) (λ last. last.at ≡ result) }
    ensures few { result < 2 ^ 16 }
{
    let mut at = 0;
    for (count, acts) in [(0u8, 0u8), (1, 1), (0, 1), (3, 4), (0, 4), (2, 6)] {
        publish_looks(page, writer, at, count as u64);
        at += count as u64;
        check_eq(rt, watcher.look(page), look_at(acts as u64));
    }
    at
}

#[test]
fn a_look_is_the_last_one_published(rt: HostRuntime) -> Result<(), Fail> {
    let (page, writer, watcher) = Page::new(rt.alloc()).ok().ok_or("memory")?;
    let page = crosses(page);
    is_shared(&page);
    let mut writer = crosses(writer);
    let mut watcher = crosses(watcher);
    let at = check_rows(&rt, &page, &mut writer, &mut watcher);
    check_eq(&rt, at, 6);
    publish_looks(&page, &mut writer, at, 2);
    meet(&page, &mut writer, &mut watcher);
    check_eq(&rt, watcher.look(&page), look_at(8));
    check_eq(&rt, watcher.look(&page), look_at(8));
    Ok(())
}

// Publishes the looks of 1 act up to `LOOKS` acts.
fn write_looks(page: &Page, mut writer: Writer) -> Writer
    requires page { writer.page ≡ page.now }
    requires last { IfSome (last_look writer.published) (λ last. last.at ≡ 0) }
    ensures page { result.page ≡ page.now }
{
    publish_looks(page, &mut writer, 0, LOOKS);
    writer
}

// Makes `LOOKS` looks. None is before the one before it, and the numbers of each belong together.
fn read_looks(rt: &impl Abort, page: &Page, mut watcher: Watcher) -> Watcher
    requires page { watcher.page ≡ page.now }
    ensures page { result.page ≡ page.now }
{
    let mut last = 0;
    for _ in 0..LOOKS {
        let look = watcher.look(page);
        check(rt, last <= look.at && look.at <= LOOKS);
        check_eq(rt, look, look_at(look.at));
        last = look.at;
    }
    watcher
}

#[test]
fn two_threads_share_a_page(rt: HostRuntime) -> Result<(), Fail> {
    let (page, writer, watcher) = Page::new(rt.alloc()).ok().ok_or("memory")?;
    let (mut writer, mut watcher) = join(
        &rt,
        || write_looks(&page, writer),
        || read_looks(&rt, &page, watcher),
    );
    meet(&page, &mut writer, &mut watcher);
    check_eq(&rt, watcher.look(&page), look_at(LOOKS));
    Ok(())
}
