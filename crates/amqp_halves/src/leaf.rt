//! What a value's format code and the octets after it say of it, without its parts.
ghost use Rattle.std.specs.Prelude.{◌≡◌, ℕ, List, Some, None};
ghost use Rattle.std.specs.Str.{bytes_eq};
ghost use Rattle.amqp_types.specs.Datum.{Datum};
ghost use Rattle.amqp_types.specs.Reading.{part_at, run_at};
ghost use Rattle.amqp_performatives.specs.Composite.{type_of};
ghost use Rattle.amqp_performatives.specs.Fair.{is_null, is_descriptor};
ghost use Rattle.amqp_halves.specs.Halves.{whole};
ghost use Rattle.amqp_halves.specs.Leaves.{IsLeaf, IsLeafOf, IsItems, is_null_kind, is_ulong, is_symbol};

use crate::halves::{Halves, compound, field, first, split};
use amqp_performatives::Composite;
use amqp_types::{Class, Kind, Run, class_of, read_number};

#[derive(Clone, Copy)]
pub(crate) enum Leaf<'a> {
    Number(Kind, u64),
    Octets(Run, Halves<'a>),
    List,
    Map,
    Array,
    Described,
}

/// What is in front of octets that begin with a value.
pub(crate) fn leaf_of(octets: Halves<'_>) -> Option<Leaf<'_>>
    ensures { (n : ℕ) (d : Datum) (rest : List ℕ) → part_at n None (whole octets.entry) ≡ Some (d, rest) → IsLeafOf result d }
{
    match first(octets) {
        None => None,
        Some((code, rest)) => match class_of(code) {
            Class::Number(kind, width, reading) => match field(rest, width) {
                None => None,
                Some((n, _)) => match read_number(reading, n) {
                    None => None,
                    Some(n) => Some(Leaf::Number(kind, n)),
                },
            },
            Class::Octets(run, width) => match field(rest, width) {
                None => None,
                Some((count, rest)) => run_leaf(run, count as usize, rest),
            },
            Class::Sixteen(run) => run_leaf(run, 16, rest),
            Class::EmptyList => Some(Leaf::List),
            Class::List(_) => Some(Leaf::List),
            Class::Map(_) => Some(Leaf::Map),
            Class::Array(_) => Some(Leaf::Array),
            Class::Described => Some(Leaf::Described),
            Class::Unknown => None,
        },
    }
}

fn run_leaf(run: Run, count: usize, octets: Halves<'_>) -> Option<Leaf<'_>>
    ensures { (d : Datum) (rest : List ℕ) → run_at run count (whole octets.entry) ≡ Some (d, rest) → IsLeafOf result d }
{
    match split(octets, count) {
        None => None,
        Some((text, _)) => Some(Leaf::Octets(run, text)),
    }
}

/// The count of the items of a list, and their octets.
pub(crate) fn items(octets: Halves<'_>) -> Option<(u64, Halves<'_>)>
    ensures { (n : ℕ) (d : Datum) (rest : List ℕ) → part_at n None (whole octets.entry) ≡ Some (d, rest) → IsItems n result d }
{
    match first(octets) {
        None => None,
        Some((code, rest)) => match class_of(code) {
            Class::EmptyList => Some((
                0,
                Halves {
                    front: &[],
                    back: &[],
                },
            )),
            Class::List(width) => match compound(rest, width) {
                None => None,
                Some((count, content, _)) => Some((count, content)),
            },
            _ => None,
        },
    }
}

fn is_null_kind(kind: Kind) -> bool
    ensures { result ≡ is_null_kind kind }
{
    matches!(kind, Kind::Null)
}

fn is_ulong(kind: Kind) -> bool
    ensures { result ≡ is_ulong kind }
{
    matches!(kind, Kind::Ulong)
}

fn is_symbol(run: Run) -> bool
    ensures { result ≡ is_symbol run }
{
    matches!(run, Run::Symbol)
}

/// Whether octets begin with null, where they begin with a value.
pub(crate) fn is_null(octets: Halves<'_>) -> bool
    ensures { (n : ℕ) (d : Datum) (rest : List ℕ) → part_at n None (whole octets.entry) ≡ Some (d, rest) → result ≡ is_null d }
{
    match leaf_of(octets) {
        Some(Leaf::Number(kind, _)) => is_null_kind(kind),
        Some(Leaf::Octets(_, _)) => false,
        Some(Leaf::List) => false,
        Some(Leaf::Map) => false,
        Some(Leaf::Array) => false,
        Some(Leaf::Described) => false,
        None => false,
    }
}

/// Whether the octets are just these.
fn is_text(text: Halves<'_>, name: &[u8]) -> bool
    ensures { result ≡ bytes_eq (whole text.entry) name.now }
{
    if name.len() < text.front.len() {
        return false;
    }
    let (front, back) = name.split_at(text.front.len());
    text.front == front && text.back == back
}

/// Whether the descriptor is that of the type: its number or its name.
pub(crate) fn is_named(composite: Composite, descriptor: Leaf<'_>) -> bool
    ensures { (d : Datum) → IsLeaf descriptor.entry d → result ≡ is_descriptor (type_of composite) d }
{
    match descriptor {
        Leaf::Number(kind, n) => is_ulong(kind) && n == u64::from(composite.number()),
        Leaf::Octets(run, text) => is_symbol(run) && is_text(text, composite.name().as_bytes()),
        Leaf::List => false,
        Leaf::Map => false,
        Leaf::Array => false,
        Leaf::Described => false,
    }
}
