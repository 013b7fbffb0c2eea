//! Skips a value without allocation.
ghost use Rattle.std.specs.Prelude.{◌≤◌, ◌-◌, length, take, MatchOption};
ghost use Rattle.amqp_types.specs.Datum.{Datum};
ghost use Rattle.amqp_types.specs.Grammar.{SpellsWithin, BeginsWithValue};
ghost use Rattle.std.specs.Prelude.{◌≡◌, None, option_map, is_some};
ghost use Rattle.amqp_types.specs.Reading.{number_at, run_at, octets_at, compound_at, all_parts_at, list_at, map_at, array_content_at, array_at, described_at, part_at, body_at, after};

use crate::class::{Class, Conversion, Kind, Run, Width, class_of};
use crate::leaves::{field, fits, is_run, read_number, split};
use crate::parts::{compound, is_element, is_even};
use crate::value::MAX_DEPTH;

/// Returns the number of octets that encode the value at the start of `bytes`, nested at most 32 deep.
///
/// Returns `None` if and only if `bytes` does not begin with such a value. Allocates nothing, but checks the whole
/// value, with the octets of its strings and symbols.
pub fn skip_value(bytes: &[u8]) -> Option<usize>
    ensures { MatchOption result (¬ (BeginsWithValue 32 bytes.now)) (λ used. (used ≤ length bytes.now) × (v : Datum) × SpellsWithin 32 v (take used bytes.now)) }
{
    skip_within(MAX_DEPTH, bytes)
}

/// Returns the number of octets that encode the value at the start of `bytes`, nested at most `depth` deep.
///
/// A value without parts has depth 1. Returns `None` if and only if `bytes` does not begin with such a value. Allocates
/// nothing, but checks the whole value, with the octets of its strings and symbols.
pub fn skip_within(depth: u8, bytes: &[u8]) -> Option<usize>
    ensures { MatchOption result (¬ (BeginsWithValue depth bytes.now)) (λ used. (used ≤ length bytes.now) × (v : Datum) × SpellsWithin depth v (take used bytes.now)) }
{
    match scan_part(depth, None, bytes) {
        Some(rest) => Some(bytes.len() - rest.len()),
        None => None,
    }
}

#[tactic(auto, unfolding(crate::specs::Reading::number_at))]
fn scan_number(kind: Kind, width: Width, reading: Conversion, bytes: &[u8]) -> Option<&[u8]>
    ensures { option_map (λ r. r.now) result ≡ after (number_at kind width reading bytes.now) }
{
    match field(bytes, width) {
        None => None,
        Some((n, rest)) => match read_number(reading, n) {
            Some(n) => if fits(kind, n) { Some(rest) } else { None },
            None => None,
        },
    }
}

#[tactic(auto, unfolding(crate::specs::Reading::run_at))]
fn scan_run(run: Run, count: usize, bytes: &[u8]) -> Option<&[u8]>
    ensures { option_map (λ r. r.now) result ≡ after (run_at run count bytes.now) }
{
    match split(bytes, count) {
        None => None,
        Some((front, rest)) => if is_run(run, front) { Some(rest) } else { None },
    }
}

#[tactic(auto, unfolding(crate::specs::Reading::octets_at))]
fn scan_octets(run: Run, width: Width, bytes: &[u8]) -> Option<&[u8]>
    ensures { option_map (λ r. r.now) result ≡ after (octets_at run width bytes.now) }
{
    match field(bytes, width) {
        None => None,
        Some((count, rest)) => scan_run(run, count as usize, rest),
    }
}

#[cycle(skipping)]
pub(crate) fn scan_part(depth: u8, how: Option<u8>, bytes: &[u8]) -> Option<&[u8]>
    ensures { option_map (λ r. r.now) result ≡ after (part_at depth how bytes.now) }
{
    match how {
        Some(code) => scan_body(depth, code, bytes),
        None => match bytes.split_first() {
            None => None,
            Some((code, rest)) => scan_body(depth, *code, rest),
        },
    }
}

#[cycle(skipping)]
fn are_parts(depth: u8, how: Option<u8>, count: u64, bytes: &[u8]) -> bool
    ensures { result ≡ is_some (all_parts_at (part_at depth how) count bytes.now) }
{
    let mut rest = bytes;
    for _ in 0..count {
        match scan_part(depth, how, rest) {
            Some(next) => rest = next,
            None => return false,
        }
    }
    rest.is_empty()
}

#[cycle(skipping)]
#[tactic(auto, unfolding(crate::specs::Reading::array_content_at))]
fn is_array_content(depth: u8, count: u64, content: &[u8]) -> bool
    ensures { result ≡ is_some (array_content_at (part_at depth) count content.now) }
{
    match content.split_first() {
        None => count == 0,
        Some((code, bodies)) => {
            is_element(class_of(*code), count) && are_parts(depth, Some(*code), count, bodies)
        }
    }
}

#[cycle(skipping)]
#[tactic(auto, unfolding(crate::specs::Reading::described_at))]
fn scan_described(depth: u8, bytes: &[u8]) -> Option<&[u8]>
    ensures { option_map (λ r. r.now) result ≡ after (described_at (part_at depth) bytes.now) }
{
    let rest = scan_part(depth, None, bytes)?;
    scan_part(depth, None, rest)
}

#[cycle(skipping)]
#[tactic(auto, unfolding(crate::specs::Reading::list_at))]
fn scan_list(depth: u8, width: Width, bytes: &[u8]) -> Option<&[u8]>
    ensures { option_map (λ r. r.now) result ≡ after (list_at (part_at depth) width bytes.now) }
{
    match compound(bytes, width) {
        None => None,
        Some((count, content, rest)) => if are_parts(depth, None, count, content) {
            Some(rest)
        } else {
            None
        },
    }
}

#[cycle(skipping)]
#[tactic(auto, unfolding(crate::specs::Reading::map_at))]
fn scan_map(depth: u8, width: Width, bytes: &[u8]) -> Option<&[u8]>
    ensures { option_map (λ r. r.now) result ≡ after (map_at (part_at depth) width bytes.now) }
{
    match compound(bytes, width) {
        None => None,
        Some((count, content, rest)) => {
            if is_even(count) && are_parts(depth, None, count, content) {
                Some(rest)
            } else {
                None
            }
        }
    }
}

#[cycle(skipping)]
#[tactic(auto, unfolding(crate::specs::Reading::array_at))]
fn scan_array(depth: u8, width: Width, bytes: &[u8]) -> Option<&[u8]>
    ensures { option_map (λ r. r.now) result ≡ after (array_at (part_at depth) width bytes.now) }
{
    match compound(bytes, width) {
        None => None,
        Some((count, content, rest)) => if is_array_content(depth, count, content) {
            Some(rest)
        } else {
            None
        },
    }
}

#[cycle(skipping)]
fn scan_body(depth: u8, code: u8, bytes: &[u8]) -> Option<&[u8]>
    ensures { option_map (λ r. r.now) result ≡ after (body_at depth code bytes.now) }
{
    if depth == 0 {
        return None;
    }
    let inner = depth - 1;
    match class_of(code) {
        Class::Number(kind, width, reading) => scan_number(kind, width, reading, bytes),
        Class::Octets(run, width) => scan_octets(run, width, bytes),
        Class::Sixteen(run) => scan_run(run, 16, bytes),
        Class::EmptyList => Some(bytes),
        Class::List(width) => scan_list(inner, width, bytes),
        Class::Map(width) => scan_map(inner, width, bytes),
        Class::Array(width) => scan_array(inner, width, bytes),
        Class::Described => scan_described(inner, bytes),
        Class::Unknown => None,
    }
}
