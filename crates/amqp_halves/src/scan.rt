//! Passing over a value that lies in two places.
ghost use Rattle.std.specs.Prelude.{◌≡◌, option_map, is_some};
ghost use Rattle.amqp_types.specs.Grammar.{is_run};
ghost use Rattle.amqp_types.specs.Reading.{number_at, run_at, octets_at, compound_at, all_parts_at, list_at, map_at, array_content_at, array_at, described_at, part_at, body_at, after};
ghost use Rattle.amqp_halves.specs.Halves.{whole};

use crate::halves::{Halves, compound, field, first, is_ascii, is_empty, is_utf8, len_is, split};
use amqp_types::{
    Class, Conversion, Kind, Run, Width, class_of, fits, is_element, is_even, read_number,
};

/// Whether a run may have these octets.
fn is_run(run: Run, octets: Halves<'_>) -> bool
    ensures { result ≡ is_run run (whole octets.entry) }
{
    match run {
        Run::Binary => true,
        Run::Str => is_utf8(octets),
        Run::Symbol => is_ascii(octets),
        Run::Dec128 => len_is(octets, 16),
        Run::Uuid => len_is(octets, 16),
    }
}

#[tactic(auto, unfolding(amqp_types::specs::Reading::number_at))]
fn scan_number(
    kind: Kind,
    width: Width,
    reading: Conversion,
    octets: Halves<'_>,
) -> Option<Halves<'_>>
    ensures { option_map whole result ≡ after (number_at kind width reading (whole octets.entry)) }
{
    match field(octets, width) {
        None => None,
        Some((n, rest)) => match read_number(reading, n) {
            Some(n) => if fits(kind, n) { Some(rest) } else { None },
            None => None,
        },
    }
}

#[tactic(auto, unfolding(amqp_types::specs::Reading::run_at))]
fn scan_run(run: Run, count: usize, octets: Halves<'_>) -> Option<Halves<'_>>
    ensures { option_map whole result ≡ after (run_at run count (whole octets.entry)) }
{
    match split(octets, count) {
        None => None,
        Some((front, rest)) => if is_run(run, front) { Some(rest) } else { None },
    }
}

#[tactic(auto, unfolding(amqp_types::specs::Reading::octets_at))]
fn scan_octets(run: Run, width: Width, octets: Halves<'_>) -> Option<Halves<'_>>
    ensures { option_map whole result ≡ after (octets_at run width (whole octets.entry)) }
{
    match field(octets, width) {
        None => None,
        Some((count, rest)) => scan_run(run, count as usize, rest),
    }
}

#[cycle(scanning)]
pub(crate) fn scan_part(depth: u8, how: Option<u8>, octets: Halves<'_>) -> Option<Halves<'_>>
    ensures { option_map whole result ≡ after (part_at depth how (whole octets.entry)) }
{
    match how {
        Some(code) => scan_body(depth, code, octets),
        None => match first(octets) {
            None => None,
            Some((code, rest)) => scan_body(depth, code, rest),
        },
    }
}

/// Whether the parts are all of the octets.
#[cycle(scanning)]
fn are_parts(depth: u8, how: Option<u8>, count: u64, octets: Halves<'_>) -> bool
    ensures { result ≡ is_some (all_parts_at (part_at depth how) count (whole octets.entry)) }
{
    let mut rest = octets;
    for _ in 0..count {
        match scan_part(depth, how, rest) {
            Some(next) => rest = next,
            None => return false,
        }
    }
    is_empty(rest)
}

#[cycle(scanning)]
#[tactic(auto, unfolding(amqp_types::specs::Reading::array_content_at))]
fn is_array_content(depth: u8, count: u64, content: Halves<'_>) -> bool
    ensures { result ≡ is_some (array_content_at (part_at depth) count (whole content.entry)) }
{
    match first(content) {
        None => count == 0,
        Some((code, bodies)) => {
            is_element(class_of(code), count) && are_parts(depth, Some(code), count, bodies)
        }
    }
}

#[cycle(scanning)]
#[tactic(auto, unfolding(amqp_types::specs::Reading::described_at))]
fn scan_described(depth: u8, octets: Halves<'_>) -> Option<Halves<'_>>
    ensures { option_map whole result ≡ after (described_at (part_at depth) (whole octets.entry)) }
{
    let rest = scan_part(depth, None, octets)?;
    scan_part(depth, None, rest)
}

#[cycle(scanning)]
#[tactic(auto, unfolding(amqp_types::specs::Reading::list_at))]
fn scan_list(depth: u8, width: Width, octets: Halves<'_>) -> Option<Halves<'_>>
    ensures { option_map whole result ≡ after (list_at (part_at depth) width (whole octets.entry)) }
{
    match compound(octets, width) {
        None => None,
        Some((count, content, rest)) => if are_parts(depth, None, count, content) {
            Some(rest)
        } else {
            None
        },
    }
}

#[cycle(scanning)]
#[tactic(auto, unfolding(amqp_types::specs::Reading::map_at))]
fn scan_map(depth: u8, width: Width, octets: Halves<'_>) -> Option<Halves<'_>>
    ensures { option_map whole result ≡ after (map_at (part_at depth) width (whole octets.entry)) }
{
    match compound(octets, width) {
        None => None,
        Some((count, content, rest)) => {
            if is_even(count) && are_parts(depth, None, count, content) {
                Some(rest)
            } else {
                None
            }
        }
    }
}

#[cycle(scanning)]
#[tactic(auto, unfolding(amqp_types::specs::Reading::array_at))]
fn scan_array(depth: u8, width: Width, octets: Halves<'_>) -> Option<Halves<'_>>
    ensures { option_map whole result ≡ after (array_at (part_at depth) width (whole octets.entry)) }
{
    match compound(octets, width) {
        None => None,
        Some((count, content, rest)) => if is_array_content(depth, count, content) {
            Some(rest)
        } else {
            None
        },
    }
}

#[cycle(scanning)]
fn scan_body(depth: u8, code: u8, octets: Halves<'_>) -> Option<Halves<'_>>
    ensures { option_map whole result ≡ after (body_at depth code (whole octets.entry)) }
{
    if depth == 0 {
        return None;
    }
    let inner = depth - 1;
    match class_of(code) {
        Class::Number(kind, width, reading) => scan_number(kind, width, reading, octets),
        Class::Octets(run, width) => scan_octets(run, width, octets),
        Class::Sixteen(run) => scan_run(run, 16, octets),
        Class::EmptyList => Some(octets),
        Class::List(width) => scan_list(inner, width, octets),
        Class::Map(width) => scan_map(inner, width, octets),
        Class::Array(width) => scan_array(inner, width, octets),
        Class::Described => scan_described(inner, octets),
        Class::Unknown => None,
    }
}
