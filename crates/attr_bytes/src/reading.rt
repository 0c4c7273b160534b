//! From bytes to an attribute.

ghost use Rattle.std.specs.Prelude.{◌≡◌, ℕ, ◌≤◌, length, IfOk, MatchResult};
ghost use Rattle.attr_bytes.specs.declared.raw.RawAttr.{RawAttr};
ghost use Rattle.attr_bytes.specs.Layout.{attr_size};
ghost use Rattle.attr_bytes.specs.Standing.{StandsFor};
ghost use Rattle.attr_bytes.specs.Faults.{fault_of, frame_fault, field_fault, has_unknown};

use crate::fault::AttrFault;
use crate::fields::{u32_at, u64_at};
use crate::flag_word::{READ_BITS, flags_of_word};
use crate::raw::RawAttr;

// Where the size field ends, in bytes.
const SIZE_END: usize = 8;

// The first published size of an attribute, and the largest that is taken, in bytes.
const FIRST_SIZE: usize = 64;

const LARGEST_SIZE: usize = 4096;

/// The attribute that the bytes stand for, or their first fault. Bytes past the size are not read.
pub fn read_attr(bytes: &[u8]) -> Result<RawAttr, AttrFault>
    // What is read, the bytes stand for.
    ensures ok { IfOk result (StandsFor bytes.now) }
    // What the bytes stand for is read.
    ensures every { (raw : RawAttr) → StandsFor bytes.now raw → result ≡ Ok raw }
    // Which fault it is, and that there is none on success.
    ensures fault { MatchResult result
        (λ _. fault_of bytes.now ≡ None)
        (λ fault. fault_of bytes.now ≡ Some fault) }
{
    check_frame(bytes)?;
    check_fields(bytes)?;
    Ok(RawAttr {
        class: u32_at(bytes, 0),
        config: u64_at(bytes, 8),
        period: u64_at(bytes, 16),
        sample: u64_at(bytes, 24),
        format: u64_at(bytes, 32),
        flags: flags_of_word(u64_at(bytes, 40)),
    })
}

// The size that counts, in bytes.
fn stated_size(bytes: &[u8]) -> usize
    requires { 8 ≤ length bytes.now }
    ensures { result ≡ attr_size bytes.now }
{
    match u32_at(bytes, 4) {
        0 => FIRST_SIZE,
        size => size as usize,
    }
}

// Whether a byte is set that this profile has no field for, below the size.
fn has_unknown_part(bytes: &[u8], size: usize) -> bool
    requires stated { size ≡ attr_size bytes.now }
    requires least { 64 ≤ size }
    requires whole { size ≤ length bytes.now }
    ensures { result ≡ has_unknown bytes.now }
{
    bytes[FIRST_SIZE..size].iter().any(|byte| *byte != 0)
}

// Looks for a fault of the size, of the bytes that it takes, or of those that this profile has no field for.
fn check_frame(bytes: &[u8]) -> Result<(), AttrFault>
    ensures ok { IfOk result (λ _. 64 ≤ length bytes.now) }
    ensures fault { MatchResult result
        (λ _. frame_fault bytes.now ≡ None)
        (λ fault. frame_fault bytes.now ≡ Some fault) }
{
    if bytes.len() < SIZE_END {
        return Err(AttrFault::Short);
    }
    let size = stated_size(bytes);
    if size < FIRST_SIZE || size > LARGEST_SIZE {
        return Err(AttrFault::TooBig);
    }
    if bytes.len() < size {
        return Err(AttrFault::Short);
    }
    if has_unknown_part(bytes, size) {
        return Err(AttrFault::TooBig);
    }
    Ok(())
}

// Looks for a fault of the fields.
fn check_fields(bytes: &[u8]) -> Result<(), AttrFault>
    requires { 64 ≤ length bytes.now }
    ensures { MatchResult result
        (λ _. field_fault bytes.now ≡ None)
        (λ fault. field_fault bytes.now ≡ Some fault) }
{
    if !matches!(u32_at(bytes, 0), 0 | 1 | 4) {
        return Err(AttrFault::BadClass);
    }
    let word = u64_at(bytes, 40);
    if word & READ_BITS != word {
        return Err(AttrFault::BadFlags);
    }
    if u32_at(bytes, 52) != 0 || u64_at(bytes, 56) != 0 {
        return Err(AttrFault::BadField);
    }
    Ok(())
}
