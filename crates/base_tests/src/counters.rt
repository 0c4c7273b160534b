//! Seats against worked cases and against a plain search.

ghost use Rattle.std.specs.Prelude.{◌≡◌, ℕ, ◌+◌, ◌^◌, ◌<◌, ◌≤◌, length, All, IfOk};
ghost use Rattle.stage_spec.specs.Tight.{masks_of};
ghost use Rattle.perf_base.specs.Masks.{IsMask};
ghost use Rattle.counter_match.specs.Seating.{AreDistinct};

use crate::checks::{check, check_eq};
use counter_match::Seats;
use perf_base::{EventNo, SeatList, Steps, Tight};
use std::alloc::{AllocError, Global};
use std::marker::Brand;
use std::sync::ledger::{Blank, Ledger};
use std::test::Fail;

/// Whether events with these masks, from a place on and without the one at `gap`, fit on the counters that are not
/// taken.
fn fits_from(masks: &[u32], place: usize, gap: usize, taken: u32) -> bool {
    if place >= masks.len() {
        return true;
    }
    if place == gap {
        return fits_from(masks, place + 1, gap, taken);
    }
    for counter in 0..16u32 {
        let bit = 1u32 << counter;
        if masks[place] & bit != 0
            && taken & bit == 0
            && fits_from(masks, place + 1, gap, taken | bit)
        {
            return true;
        }
    }
    false
}

/// How long the shortest beginning that does not fit is, and one more than the length where there is none.
fn shortest(masks: &[u32]) -> usize {
    for used in 1..masks.len() + 1 {
        if !fits_from(&masks[..used], 0, used, 0) {
            return used;
        }
    }
    masks.len() + 1
}

/// Whether the set has exactly the places without which the masks fit, in order.
fn is_tight(set: &Tight, masks: &[u32]) -> bool {
    let mut told = 0;
    for place in 0..masks.len() {
        if fits_from(masks, 0, place, 0) {
            if told >= set.len() || set.get(told).0 as usize != place {
                return false;
            }
            told += 1;
        }
    }
    told == set.len()
}

/// Whether the list has the places in order, each on a counter of its mask, and no counter twice.
fn is_seated(list: &SeatList, masks: &[u32]) -> bool {
    if list.len() != masks.len() {
        return false;
    }
    let mut taken = 0u32;
    for place in 0..masks.len() {
        if place >= list.len() {
            return false;
        }
        let (event, counter) = list.get(place);
        if counter >= 16 || event.0 as usize != place {
            return false;
        }
        let bit = 1u32 << counter;
        if masks[place] & bit == 0 || taken & bit != 0 {
            return false;
        }
        taken |= bit;
    }
    true
}

/// Events in slots 0, 1, .. with these masks.
fn events_with(alloc: Global, masks: &[u32]) -> Result<Vec<(EventNo, u32)>, AllocError>
    requires { length masks.now ≤ 17 }
    ensures distinct { IfOk result (λ events. AreDistinct events.items) }
    ensures masks { IfOk result (λ events. masks_of events.items ≡ masks.now) }
{
    let mut events = Vec::new(alloc);
    for slot in 0..masks.len() {
        events.push((EventNo(slot as u16), masks[slot]))?;
    }
    Ok(events)
}

/// Whether seats answer as the plain search does, where the events come in two groups.
fn agrees<L: Ledger>(
    counters: u8,
    events: &[(EventNo, u32)],
    masks: &[u32],
    split: usize,
    steps: &mut Steps<L>,
) -> bool
    requires some { 0 < counters }
    requires most { counters ≤ 16 }
    requires distinct { AreDistinct events.now }
    requires masks { All (IsMask counters) masks.now }
    requires same { masks_of events.now ≡ masks.now }
    requires split { split ≤ length events.now }
    requires front { split ≤ 8 }
    requires back { length events.now ≤ split + 8 }
{
    let mut seats = Seats::new(counters);
    let answer = match seats.try_add(&events[..split], steps) {
        Ok(()) => seats.try_add(&events[split..], steps),
        Err(set) => Err(set),
    };
    let used = shortest(masks);
    match answer {
        Ok(()) => used > masks.len() && is_seated(&seats.list(), masks),
        Err(set) => used <= masks.len() && is_tight(&set, &masks[..used]),
    }
}

/// Adds one event that has a later slot than those that are seated.
fn add<L: Ledger>(
    seats: &mut Seats,
    slot: u16,
    mask: u32,
    steps: &mut Steps<L>,
) -> Result<(), Tight>
    requires mask { IsMask seats.old.counters mask }
    requires later { All (λ event. event.0.0 < slot) seats.old.events }
    ensures counters { seats.new.counters ≡ seats.old.counters }
    ensures later { All (λ event. event.0.0 < slot + 1) seats.new.events }
{
    seats.list();
    let group = [(EventNo(slot), mask)];
    seats.try_add(&group, steps)
}

/// What seats answer where events in slots 0, 1, .. come one by one, and which counters they have at the end.
fn told<L: Ledger>(
    alloc: Global,
    blank: Blank,
    counters: u8,
    masks: &[u32],
) -> Result<String, AllocError>
    requires name { blank.name ≡ L.name }
    requires parts { blank.parts ≡ L.parts }
    requires some_parts { 0 < blank.parts }
    requires some { 0 < counters }
    requires most { counters ≤ 16 }
    requires few { length masks.now ≤ 17 }
{
    let mut steps = Steps::<L>::new(blank);
    let mut seats = Seats::new(counters);
    let mut text = String::new(alloc);
    for slot in 0..masks.len() {
        let mask = masks[slot];
        if mask == 0 || mask >= 1 << counters {
            return Ok(text);
        }
        match add(&mut seats, slot as u16, mask, &mut steps) {
            Ok(()) => text.push_str("ok ")?,
            Err(set) => tell_set(&mut text, &set)?,
        }
    }
    tell_list(&mut text, &seats.list())?;
    Ok(text)
}

fn tell_set(text: &mut String, set: &Tight) -> Result<(), AllocError> {
    for event in set.as_slice() {
        write!(text, "{} ", event.0)?;
    }
    text.push_str("no ")
}

fn tell_list(text: &mut String, list: &SeatList) -> Result<(), AllocError> {
    for (event, counter) in list.as_slice() {
        write!(text, "{}:{} ", event.0, counter)?;
    }
    Ok(())
}

/// The same, where nobody counts the steps.
fn told_plainly(alloc: Global, counters: u8, masks: &[u32]) -> Result<String, AllocError>
    requires some { 0 < counters }
    requires most { counters ≤ 16 }
    requires few { length masks.now ≤ 17 }
{
    told::<Brand>(alloc, Blank::new(1), counters, masks)
}

#[test]
fn cases(rt: HostRuntime) -> Result<(), Fail> {
    let table = [
        (3, [1, 6, 1].as_slice(), "ok ok 0 2 no 0:0 1:1 "),
        (2, [3, 1].as_slice(), "ok ok 0:1 1:0 "),
        (
            2,
            [3, 1, 2, 3].as_slice(),
            "ok ok 0 1 2 no 0 1 3 no 0:1 1:0 ",
        ),
        (
            4,
            [12, 3, 1, 3].as_slice(),
            "ok ok ok 1 2 3 no 0:2 1:1 2:0 ",
        ),
        (
            16,
            [0xffff; 17].as_slice(),
            "ok ok ok ok ok ok ok ok ok ok ok ok ok ok ok ok 0 1 2 3 4 5 6 7 8 9 10 11 12 13 14 15 16 no \
             0:0 1:1 2:2 3:3 4:4 5:5 6:6 7:7 8:8 9:9 10:10 11:11 12:12 13:13 14:14 15:15 ",
        ),
    ];
    for (counters, masks, want) in table {
        check(&rt, counters > 0 && counters <= 16 && masks.len() <= 17);
        let text = told_plainly(rt.alloc(), counters, masks)?;
        check_eq(&rt, text.as_str(), want);
    }
    Ok(())
}

/// Masks of few counters, of 16.
static SPARSE: [u32; 12] = [
    0x0001, 0x0003, 0x0006, 0x8001, 0x0011, 0x4002, 0x0007, 0x8000, 0xc000, 0x0030, 0x0021, 0xffff,
];

/// A mask by a number: each of 3 counters' from 0 on, and some of 16 counters'.
fn mask_by(counters: u8, number: usize) -> u32
    requires some { 0 < counters }
    requires most { counters ≤ 16 }
    ensures { IsMask counters result }
{
    let mask = if counters == 3 {
        (1 + number % 7) as u32
    } else {
        SPARSE[number % 12]
    };
    if mask == 0 || mask >= 1 << counters {
        1
    } else {
        mask
    }
}

/// The list of `count` masks whose numbers are the digits of a number.
fn masks_by(
    alloc: Global,
    counters: u8,
    count: usize,
    number: usize,
    base: usize,
) -> Result<Vec<u32>, AllocError>
    requires some { 0 < counters }
    requires most { counters ≤ 16 }
    requires base { (0 < base) × (base < 100) }
    ensures masks { IfOk result (λ masks. All (IsMask counters) masks.items) }
    ensures count { IfOk result (λ masks. length masks.items ≡ count) }
{
    let mut masks = Vec::new(alloc);
    let mut rest = number;
    for _ in 0..count {
        masks.push(mask_by(counters, rest % base))?;
        rest /= base;
    }
    Ok(masks)
}

/// Whether seats and the plain search agree on so many lists of `count` masks, whose numbers are the multiples of
/// `step`, however such a list is split into two groups.
fn all_agree<L: Ledger>(
    alloc: Global,
    blank: Blank,
    counters: u8,
    count: usize,
    base: usize,
    lists: usize,
    step: usize,
) -> Result<bool, AllocError>
    requires name { blank.name ≡ L.name }
    requires parts { blank.parts ≡ L.parts }
    requires some_parts { 0 < blank.parts }
    requires some { 0 < counters }
    requires most { counters ≤ 16 }
    requires count { count ≤ 9 }
    requires base { (0 < base) × (base < 100) }
{
    let mut steps = Steps::<L>::new(blank);
    for list in 0..lists {
        let masks = masks_by(alloc, counters, count, list.wrapping_mul(step), base)?;
        let events = events_with(alloc, masks.as_slice())?;
        for split in count.saturating_sub(8)..count.min(8) + 1 {
            if !agrees(
                counters,
                events.as_slice(),
                masks.as_slice(),
                split,
                &mut steps,
            ) {
                return Ok(false);
            }
        }
    }
    Ok(true)
}

/// The same, where nobody counts the steps.
fn all_agree_plainly(
    alloc: Global,
    counters: u8,
    count: usize,
    base: usize,
    lists: usize,
    step: usize,
) -> Result<bool, AllocError>
    requires some { 0 < counters }
    requires most { counters ≤ 16 }
    requires count { count ≤ 9 }
    requires base { (0 < base) × (base < 100) }
{
    all_agree::<Brand>(alloc, Blank::new(1), counters, count, base, lists, step)
}

#[test]
fn agrees_with_the_plain_search(rt: HostRuntime) -> Result<(), Fail> {
    let alloc = rt.alloc();
    check(&rt, all_agree_plainly(alloc, 3, 0, 7, 1, 1)?);
    check(&rt, all_agree_plainly(alloc, 3, 1, 7, 7, 1)?);
    check(&rt, all_agree_plainly(alloc, 3, 2, 7, 49, 1)?);
    check(&rt, all_agree_plainly(alloc, 3, 3, 7, 343, 1)?);
    check(&rt, all_agree_plainly(alloc, 3, 4, 7, 2401, 1)?);
    check(&rt, all_agree_plainly(alloc, 16, 6, 12, 100, 7919)?);
    check(
        &rt,
        all_agree_plainly(alloc, 16, 9, 12, 100, 1_299_709_421)?,
    );
    Ok(())
}

/// Whether seats that had another event have two events after `copy_from`, on counters of their masks.
fn copies<L: Ledger>(blank: Blank) -> bool
    requires name { blank.name ≡ L.name }
    requires parts { blank.parts ≡ L.parts }
    requires some { 0 < blank.parts }
{
    let mut steps = Steps::<L>::new(blank);
    let mut own = Seats::new(2);
    let _ = own.try_add(&[(EventNo(9), 3)], &mut steps);
    let mut other = Seats::new(2);
    let _ = other.try_add(&[(EventNo(0), 3), (EventNo(1), 1)], &mut steps);
    own.copy_from(&other);
    is_seated(&own.list(), &[3, 1]) && is_seated(&other.list(), &[3, 1])
}

#[test]
fn copies_other_seats(rt: HostRuntime) {
    check(&rt, copies::<Brand>(Blank::new(1)));
}
