//! The answers of a run, each kept as small as it is: an entry for each, and the reasons of refusals and what was told
//! in lists of their own.

ghost use Rattle.std.specs.Prelude.{◌≡◌, ◌<◌, ◌^◌, [], ◌∷◌, ◌++◌, IfOk, Some, length, slice_get, vec_capacity, vec_len};
ghost use Rattle.perf_base.specs.Answered.{IsShort, reasons_in, reply_of, short_of, told_in};

use crate::acts::Actor;
use crate::numbers::NoMemory;
use crate::reasons::Reason;
use crate::reply::{Answer, Reply};
use std::alloc::Global;
use std::marker::Model;

/// What an entry says of its reply: that it is a plain Ok, or where its reason or what was told stands, from 0.
#[derive(Clone, Copy, PartialEq, Eq, Debug)]
enum Short {
    Ok,
    Refused(u32),
    Told(u32),
}

/// An answer without what it says.
#[derive(Clone, Copy, PartialEq, Eq, Debug)]
struct Entry {
    actor: Actor,
    number: u32,
    short: Short,
}

/// A reply as a list keeps it. A contract sees the reply itself.
#[derive(Clone, Copy, PartialEq, Eq, Debug)]
struct StoredReply {
    reply: Reply,
}

impl Model for StoredReply {
    ghost use Rattle.perf_base.specs.declared.reply.Reply.{Reply};

    ghost Value = { Reply };

    ghost view = { λ s. s.reply };

    ghost inverse = { λ r. record { reply = r } };
}

/// The answers of a run, in their order, with room for as many as it was made for. A plain Ok takes 16 bytes, and only
/// what was refused or told takes more.
#[derive(Drop)]
pub struct Answers {
    entries: Vec<Entry>,
    reasons: Vec<Reason>,
    told: Vec<StoredReply>,
    room: u32,
}

impl Model for Answers {
    ghost use Rattle.std.specs.Prelude.{◌≤◌, map, vec_capacity};
    ghost use Rattle.perf_base.specs.Answered.{Answered, AreKept, answer_of};

    ghost Value = { Answered };

    ghost view = { λ a. record { items = map (answer_of a.reasons.items a.told.items) a.entries.items; room = a.room } };

    ghost invariant = { λ a. AreKept a.reasons.items a.told.items a.entries.items a.room
        × (a.room ≤ vec_capacity a.entries) × (a.room ≤ vec_capacity a.reasons) × (a.room ≤ vec_capacity a.told) };
}

/// Keeps what a reply says, and answers how its entry says it.
fn keep(reasons: &mut Vec<Reason>, told: &mut Vec<StoredReply>, reply: Reply) -> Short
    requires reasons_room { vec_len reasons.old < vec_capacity reasons.old }
    requires told_room { vec_len told.old < vec_capacity told.old }
    requires reasons_few { vec_len reasons.old < 2 ^ 32 }
    requires told_few { vec_len told.old < 2 ^ 32 }
    ensures short { result ≡ short_of reasons.old.items told.old.items reply }
    ensures reasons { reasons.new.items ≡ reasons.old.items ++ reasons_in reply }
    ensures told { told.new.items ≡ told.old.items ++ told_in reply }
    ensures reasons_capacity { vec_capacity reasons.new ≡ vec_capacity reasons.old }
    ensures told_capacity { vec_capacity told.new ≡ vec_capacity told.old }
{
    match reply {
        Reply::Ok => Short::Ok,
        Reply::Refused(reason) => {
            let place = reasons.len() as u32;
            reasons.push_reserved(reason);
            Short::Refused(place)
        }
        Reply::Read(_) | Reply::Why(_) | Reply::Seats(_) => {
            let place = told.len() as u32;
            told.push_reserved(StoredReply { reply });
            Short::Told(place)
        }
    }
}

/// What an entry says.
fn reply_of(reasons: &[Reason], told: &[StoredReply], short: Short) -> Reply
    requires { IsShort reasons.now told.now short }
    ensures { result ≡ reply_of reasons.now told.now short }
{
    match short {
        Short::Ok => Reply::Ok,
        Short::Refused(place) => Reply::Refused(reasons[place as usize]),
        Short::Told(place) => {
            let stored = &told[place as usize];
            stored.reply
        }
    }
}

impl Answers {
    /// No answers, with room for so many. It takes all memory that they will need, and fails only where there is not so
    /// much.
    pub fn with_room(alloc: Global, room: u32) -> Result<Answers, NoMemory>
        ensures empty { IfOk result (λ a. a.items ≡ []) }
        ensures room { IfOk result (λ a. a.room ≡ room) }
    {
        Ok(Answers {
            entries: Vec::with_capacity(alloc, room as usize)?,
            reasons: Vec::with_capacity(alloc, room as usize)?,
            told: Vec::with_capacity(alloc, room as usize)?,
            room,
        })
    }

    /// How many answers.
    pub fn len(&self) -> usize
        ensures { result ≡ length self.now.items }
    {
        self.entries.len()
    }

    /// Adds an answer at the end.
    pub fn push_reserved(&mut self, answer: Answer)
        requires { length self.old.items < self.old.room }
        ensures items { self.new.items ≡ self.old.items ++ answer ∷ [] }
        ensures room { self.new.room ≡ self.old.room }
    {
        let short = keep(&mut self.reasons, &mut self.told, answer.reply);
        self.entries.push_reserved(Entry {
            actor: answer.actor,
            number: answer.number,
            short,
        });
    }

    /// The answer at a place, from 0.
    pub fn get(&self, place: usize) -> Answer
        requires { place < length self.now.items }
        ensures { slice_get self.now.items place ≡ Some result }
    {
        let entry = self.entries[place];
        Answer {
            actor: entry.actor,
            number: entry.number,
            reply: reply_of(&self.reasons, &self.told, entry.short),
        }
    }
}
