//! A machine that given lines are made calls of.

ghost use Rattle.std.specs.Prelude.{◌≡◌, ◌≤◌, [], List, IfOk, IfErr, length};
ghost use Rattle.perf_base.specs.Scripts.{IsCovered};
ghost use Rattle.perf_base.specs.declared.reply.Reply.{Reply as Replied};
ghost use Rattle.line_forms.specs.Forms.{version_of};
ghost use Rattle.given_lines.specs.declared.given.Given.{Given as Line};
ghost use Rattle.given_lines.specs.Given.{IsLineFor};
ghost use Rattle.live_session.specs.Turns.{IsAnswered, call_of};
ghost use Rattle.live_session.specs.Sessions.{IsLiveAfter, IsMade, IsOfSame, IsOpened, IsRefusedHead};

use crate::said::Said;
use crate::status::Status;
use given_lines::{Given, Head, read_given, read_head};
use line_forms::Version;
use perf_base::{NoMemory, Script};
use perf_share::{Call, Served, serve};
use script_read::ScriptFault;
use shared_object::Sequential;
use std::alloc::Global;

/// How many calls a session makes at most.
const MOST_CALLS: u32 = 16384;

/// The machine of a head, with the number of the calls that were made.
#[derive(Drop)]
pub struct LiveMachine {
    pub(crate) served: Served,
    pub(crate) script: Script,
    pub(crate) version: Version,
    pub(crate) given: u32,
}

/// A given line as a call.
fn call(given: &Given) -> Call
    ensures { result ≡ call_of given.now }
{
    match given {
        Given::Tool(_, line) => Call::Tool(*line),
        Given::Cpu(cpu, line) => Call::Cpu(*cpu, *line),
    }
}

impl LiveMachine {
    /// The machine of a head's script, before its first call. It takes all memory that its calls need.
    fn of(alloc: Global, head: Head) -> Result<LiveMachine, NoMemory>
        requires covered { IsCovered head.script }
        requires rings { head.script.rings ≡ [] }
        ensures script { IfOk result (λ m. m.script ≡ head.script) }
        ensures version { IfOk result (λ m. m.version ≡ head.version) }
        ensures first { IfOk result (λ m. IsLiveAfter m []) }
    {
        let Head { script, version } = head;
        let served = serve(alloc, &script)?;
        Ok(LiveMachine {
            served,
            script,
            version,
            given: 0,
        })
    }

    /// The machine of a head.
    pub(crate) fn read(alloc: Global, text: &[u8]) -> Result<LiveMachine, Status>
        requires { length text.now ≤ 4194304 }
        ensures ok { IfOk result (λ m. IsOpened text.now m) }
        ensures bad { IfErr result (IsRefusedHead text.now) }
    {
        match read_head(alloc, text) {
            Err(ScriptFault::NoMemory) => Err(Status::NoMemory),
            Err(ScriptFault::Bad { line, reason }) => Err(Status::BadHead { line, reason }),
            Ok(head) => match LiveMachine::of(alloc, head) {
                Err(NoMemory) => Err(Status::NoMemory),
                Ok(machine) => Ok(machine),
            },
        }
    }

    /// Makes the call of a given line, unless 16,384 were made.
    fn make(&mut self, given: &Given) -> Said
        requires live { (made : List (Line × Replied)) × IsLiveAfter self.old made }
        requires line { IsLineFor self.old.script given.now }
        ensures made { (made : List (Line × Replied)) → IsLiveAfter self.old made
            → (now : List (Line × Replied)) × IsMade self.old.script made given.now result now × IsLiveAfter self.new now }
        ensures same { IsOfSame self.old self.new }
    {
        if self.given >= MOST_CALLS {
            return Said::Full;
        }
        self.given += 1;
        Said::Replied(self.served.apply(&call(given)))
    }

    /// Answers a line of at most 65,536 bytes. A line that is none that can be given changes nothing.
    pub(crate) fn answer(&mut self, line: &[u8]) -> Said
        requires live { (made : List (Line × Replied)) × IsLiveAfter self.old made }
        ensures answered { (made : List (Line × Replied)) → IsLiveAfter self.old made
            → (now : List (Line × Replied)) × IsAnswered self.old.script (version_of self.old.version) made line.now result now × IsLiveAfter self.new now }
        ensures same { IsOfSame self.old self.new }
    {
        match read_given(self.version, &self.script, line) {
            Err(reason) => Said::Bad(reason),
            Ok(given) => self.make(&given),
        }
    }
}
