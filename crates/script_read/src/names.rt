//! Kinds and rings by their names.

ghost use Rattle.std.specs.Prelude.{◌≡◌, ◌≢◌, ◌↔◌, IsTrue, IfSome, MatchOption, All, Any, length, None};
ghost use Rattle.std.specs.Str.{bytes_eq};
ghost use Rattle.perf_base.specs.Scripts.{IsScript, IsFreeName, HasRing, IsAct};
ghost use Rattle.attr_bytes.specs.Standing.{StandsFor};
ghost use Rattle.attr_bytes.specs.Kinds.{kind_numbered};
ghost use Rattle.attr_bytes.specs.Faults.{fault_of};
ghost use Rattle.script_spec.specs.Acts.{IsActInRange};
ghost use Rattle.script_spec.specs.Meaning as says;
ghost use Rattle.script_read.specs.Names.{IsNewIn};

use attr_bytes::{RawAttr, kind_of, read_attr};
use line_forms::{AttrBytes, MOST_BYTES};
use perf_base::{Act, Kind, Name, RingNo, Script};

fn is_called(name: Name, text: &[u8]) -> bool
    ensures { result ≡ bytes_eq name text.now }
{
    name.as_bytes() == text
}

/// Whether a kind may be called so.
pub fn is_free_name(name: Name) -> bool
    ensures { IsTrue result ↔ IsFreeName name }
{
    !is_called(name, b"ip") && Kind::software(name.as_bytes()).is_none()
}

/// The number of a declared kind.
pub fn number_of(script: &Script, name: &[u8]) -> Option<usize>
    ensures { result ≡ says.number_of script.now.kinds name.now }
{
    for kind in 0..script.kinds() {
        if is_called(script.name(kind), name) {
            return Some(kind);
        }
    }
    None
}

/// The kind that is called so, if one is.
pub fn kind_named(script: &Script, name: Name) -> Option<Kind>
    requires { IsScript script.now }
    ensures { result ≡ says.kind_named script.now.kinds name }
{
    match number_of(script, name.as_bytes()) {
        Some(kind) => Some(Kind::Hard(kind as u8)),
        None => Kind::software(name.as_bytes()),
    }
}

/// The attribute that bytes stand for.
pub fn raw_of(bytes: &AttrBytes<'_>) -> Option<RawAttr>
    ensures { MatchOption result (fault_of bytes.now ≡ None → ⊥) (λ raw. StandsFor bytes.now raw × (fault_of bytes.now ≡ None)) }
{
    let mut room = [0; MOST_BYTES];
    let count = bytes.put_into(&mut room);
    read_attr(&room[..count]).ok()
}

/// The kind that an attribute names.
pub fn kind_of_raw(script: &Script, raw: &RawAttr) -> Option<Kind>
    requires { IsScript script.now }
    ensures { result ≡ kind_numbered (length script.now.kinds) raw.now.class raw.now.config }
{
    kind_of(raw, script.kinds() as u8)
}

fn is_new(script: &Script, name: Name) -> bool
    ensures { IsTrue result ↔ All (λ k. k.name ≢ name) script.now.kinds }
{
    number_of(script, name.as_bytes()).is_none()
}

/// Whether a kind may be called so, and none is yet.
pub fn is_new_name(script: &Script, name: Name) -> bool
    ensures { IsTrue result ↔ IsNewIn script.now.kinds name }
{
    is_free_name(name) && is_new(script, name)
}

fn is_ring(ring: &(RingNo, u32), number: u64) -> bool
    ensures { IsTrue result ↔ (ring.now.0 ≡ record { 0 = number }) }
{
    u64::from(ring.0.0) == number
}

/// The declared ring of a number.
pub fn declared_ring(rings: &[(RingNo, u32)], number: u64) -> Option<RingNo>
    ensures { MatchOption result (HasRing rings.now (record { 0 = number }) → ⊥) (λ r. HasRing rings.now r × (r ≡ record { 0 = number })) }
{
    for ring in rings {
        if is_ring(ring, number) {
            return Some(ring.0);
        }
    }
    None
}

/// Whether the script has what an act is of: lines of its processor or tool, or its ring.
pub fn is_act(script: &Script, act: &Act) -> bool
    requires { IsActInRange act.now }
    ensures { IsTrue result ↔ IsAct script.now act.now }
{
    match act {
        Act::Processor(cpu) => !script.cpu_lines(*cpu).is_empty(),
        Act::Tool(tool) => !script.tool_lines(*tool).is_empty(),
        Act::Seen(ring, _) => declared_ring(script.rings(), u64::from(ring.0)).is_some(),
    }
}
