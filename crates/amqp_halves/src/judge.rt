//! Whether octets that begin with a value begin with one of a composite type (part 1, 1.4).
ghost use Rattle.std.specs.Prelude.{◌≡◌, ◌≤◌, ◌-◌, ◌++◌, ◌&&◌, ℕ, List, Some, None, IfSome, length, drop};
ghost use Rattle.amqp_types.specs.Datum.{Datum, Data, described};
ghost use Rattle.amqp_types.specs.Reading.{part_at, all_parts_at};
ghost use Rattle.amqp_performatives.specs.declared.composite.Composite.TheVariants as kind;
ghost use Rattle.amqp_performatives.specs.Composite.{type_of};
ghost use Rattle.amqp_performatives.specs.Fair.{is_descriptor};
ghost use Rattle.amqp_halves.specs.Halves.{whole};
ghost use Rattle.amqp_halves.specs.Leaves.{IsLeaf, IsOpened};
ghost use Rattle.amqp_halves.specs.Finding.{Finds};
ghost use Rattle.amqp_halves.specs.Judging.{admits_number, admits_octets, admits_map, admits_items, admits_described, is_state, all_optional, admits, fits, are_rows, first_fits, bodies, first_body, body_of, is_transfer_type};

use crate::halves::{Halves, first, is_short, len};
use crate::leaf::{Leaf, is_named, is_null, items, leaf_of};
use crate::rows::{Row, Sort, rows_of};
use crate::scan::scan_part;
use amqp_performatives::Composite;
use amqp_types::{Kind, MAX_DEPTH, Run};

fn admits_number(sort: Sort, kind: Kind, n: u64) -> bool
    ensures { result ≡ admits_number sort kind n }
{
    match sort {
        Sort::Boolean => matches!(kind, Kind::Bool),
        Sort::Role => matches!(kind, Kind::Bool),
        Sort::Ubyte(most) => matches!(kind, Kind::Ubyte) && n <= u64::from(most),
        Sort::Ushort => matches!(kind, Kind::Ushort),
        Sort::Uint => matches!(kind, Kind::Uint),
        Sort::Ulong => matches!(kind, Kind::Ulong),
        Sort::Any => !matches!(kind, Kind::Null),
        Sort::State => !matches!(kind, Kind::Null),
        _ => false,
    }
}

fn admits_octets(sort: Sort, run: Run, octets: Halves<'_>) -> bool
    ensures { result ≡ admits_octets sort run (length (whole octets.entry)) }
{
    match sort {
        Sort::Tag => matches!(run, Run::Binary) && is_short(octets),
        Sort::Str => matches!(run, Run::Str),
        Sort::Symbol => matches!(run, Run::Symbol),
        Sort::Any => true,
        Sort::State => true,
        _ => false,
    }
}

fn admits_map(sort: Sort) -> bool
    ensures { result ≡ admits_map sort }
{
    matches!(sort, Sort::Map | Sort::Any | Sort::State)
}

fn admits_items(sort: Sort) -> bool
    ensures { result ≡ admits_items sort }
{
    matches!(sort, Sort::Any | Sort::State)
}

/// Whether a field of the sort may hold the value in front.
#[cycle(judging)]
fn admits(depth: u8, sort: Sort, octets: Halves<'_>) -> bool
    ensures { (d : Datum) (rest : List ℕ) → part_at depth None (whole octets.entry) ≡ Some (d, rest) → result ≡ admits sort d }
{
    match leaf_of(octets) {
        Some(Leaf::Number(kind, n)) => admits_number(sort, kind, n),
        Some(Leaf::Octets(run, text)) => admits_octets(sort, run, text),
        Some(Leaf::List) => admits_items(sort),
        Some(Leaf::Map) => admits_map(sort),
        Some(Leaf::Array) => admits_items(sort),
        Some(Leaf::Described) => admits_described(depth, sort, octets),
        None => false,
    }
}

/// The same where a described value is in front.
#[cycle(judging)]
fn admits_described(depth: u8, sort: Sort, octets: Halves<'_>) -> bool
    ensures { (a b : Datum) (rest : List ℕ) → part_at depth None (whole octets.entry) ≡ Some (described a b, rest) → result ≡ admits_described sort a (fits b) }
{
    match sort {
        Sort::Any => true,
        Sort::Error => match opened(depth, octets) {
            Some((descriptor, value)) => {
                is_named(Composite::Error, descriptor) && fits(depth - 1, Composite::Error, value)
            }
            None => false,
        },
        Sort::State => match opened(depth, octets) {
            Some((descriptor, value)) => is_state(depth - 1, descriptor, value),
            None => false,
        },
        _ => false,
    }
}

/// The descriptor of the described value in front, and what follows it.
fn opened(depth: u8, octets: Halves<'_>) -> Option<(Leaf<'_>, Halves<'_>)>
    ensures deep { IfSome result (λ _. 1 ≤ depth) }
    ensures value { (a b : Datum) (rest : List ℕ) → part_at depth None (whole octets.entry) ≡ Some (described a b, rest) → IsOpened (depth - 1) result a b }
{
    if depth == 0 {
        return None;
    }
    match first(octets) {
        None => None,
        Some((_, rest)) => match scan_part(depth - 1, None, rest) {
            None => None,
            Some(value) => match leaf_of(rest) {
                None => None,
                Some(descriptor) => Some((descriptor, value)),
            },
        },
    }
}

/// Whether the value behind the descriptor makes it a state.
#[cycle(judging)]
fn is_state(depth: u8, descriptor: Leaf<'_>, value: Halves<'_>) -> bool
    ensures { (a b : Datum) (rest : List ℕ) → IsLeaf descriptor.entry a → part_at depth None (whole value.entry) ≡ Some (b, rest) → result ≡ is_state a (fits b) }
{
    if is_named(Composite::Received, descriptor) {
        return fits(depth, Composite::Received, value);
    }
    if is_named(Composite::Accepted, descriptor) {
        return fits(depth, Composite::Accepted, value);
    }
    if is_named(Composite::Rejected, descriptor) {
        return fits(depth, Composite::Rejected, value);
    }
    if is_named(Composite::Released, descriptor) {
        return fits(depth, Composite::Released, value);
    }
    if is_named(Composite::Modified, descriptor) {
        return fits(depth, Composite::Modified, value);
    }
    true
}

/// Whether the value in front is the list of the fields of the type.
#[cycle(judging)]
fn fits(depth: u8, composite: Composite, octets: Halves<'_>) -> bool
    ensures { (d : Datum) (rest : List ℕ) → part_at depth None (whole octets.entry) ≡ Some (d, rest) → result ≡ fits d composite }
{
    if depth == 0 {
        return false;
    }
    match items(octets) {
        Some((count, content)) => are_rows(depth - 1, rows_of(composite), count, content),
        None => false,
    }
}

/// Whether the values that the octets spell, so many, are the fields.
#[cycle(judging)]
fn are_rows(depth: u8, rows: &[Row], count: u64, octets: Halves<'_>) -> bool
    ensures { (ds : Data) → all_parts_at (part_at depth None) count (whole octets.entry) ≡ Some ds → result ≡ are_rows ds rows.now }
{
    let mut rest = octets;
    let mut others = rows;
    for _ in 0..count {
        if !first_fits(depth, others, rest) {
            return false;
        }
        match scan_part(depth, None, rest) {
            Some(next) => rest = next,
            None => return false,
        }
        others = after_first(others);
    }
    all_optional(others)
}

/// Whether the first field may hold the value in front.
#[cycle(judging)]
fn first_fits(depth: u8, rows: &[Row], octets: Halves<'_>) -> bool
    ensures { (d : Datum) (rest : List ℕ) → part_at depth None (whole octets.entry) ≡ Some (d, rest) → result ≡ first_fits rows.now d }
{
    match rows.split_first() {
        None => is_null(octets),
        Some((row, _)) => match *row {
            Row::Must(sort) => admits(depth, sort, octets),
            Row::May(sort) => is_null(octets) || admits(depth, sort, octets),
        },
    }
}

/// The fields after the first.
fn after_first(rows: &[Row]) -> &[Row]
    ensures { result.now ≡ drop 1 rows.now }
{
    match rows.split_first() {
        None => rows,
        Some((_, others)) => others,
    }
}

/// Whether each field may be left off.
fn all_optional(rows: &[Row]) -> bool
    ensures { result ≡ all_optional rows.now }
{
    for row in rows {
        if let Row::Must(_) = *row {
            return false;
        }
    }
    true
}

/// The nine performatives, the most frequent first.
const BODIES: [Composite; 9] = [
    Composite::Transfer,
    Composite::Flow,
    Composite::Disposition,
    Composite::Open,
    Composite::Begin,
    Composite::Attach,
    Composite::Detach,
    Composite::End,
    Composite::Close,
];

/// Whether the descriptor and the value behind it are of the type.
fn is_body(composite: Composite, descriptor: Leaf<'_>, value: Halves<'_>) -> bool
    ensures { (a b : Datum) (rest : List ℕ) → IsLeaf descriptor.entry a → part_at 31 None (whole value.entry) ≡ Some (b, rest) → result ≡ (is_descriptor (type_of composite) a && fits b composite) }
{
    is_named(composite, descriptor) && fits(MAX_DEPTH - 1, composite, value)
}

/// The first of these types that they are of.
fn first_body(bodies: &[Composite], descriptor: Leaf<'_>, value: Halves<'_>) -> Option<Composite>
    ensures { (a b : Datum) (rest : List ℕ) → IsLeaf descriptor.entry a → part_at 31 None (whole value.entry) ≡ Some (b, rest) → result ≡ first_body bodies.now a b }
{
    for composite in bodies {
        if is_body(*composite, descriptor, value) {
            return Some(*composite);
        }
    }
    None
}

/// Which performative the value in front is.
fn body_of(octets: Halves<'_>) -> Option<Composite>
    ensures { (d : Datum) (rest : List ℕ) → part_at 32 None (whole octets.entry) ≡ Some (d, rest) → result ≡ body_of d }
{
    match leaf_of(octets) {
        Some(Leaf::Number(_, _)) => None,
        Some(Leaf::Octets(_, _)) => None,
        Some(Leaf::List) => None,
        Some(Leaf::Map) => None,
        Some(Leaf::Array) => None,
        Some(Leaf::Described) => match opened(MAX_DEPTH, octets) {
            Some((descriptor, value)) => first_body(&BODIES, descriptor, value),
            None => None,
        },
        None => None,
    }
}

/// A performative in front of octets.
#[derive(Clone, Copy, Debug, PartialEq, Eq)]
pub struct Found {
    /// How many octets spell it.
    pub used: usize,
    pub is_transfer: bool,
}

/// The performative in front of octets that lie in two places, one after the other. It takes no memory.
pub fn find_performative(front: &[u8], back: &[u8]) -> Option<Found>
    ensures { Finds (front.now ++ back.now) result }
{
    let octets = Halves { front, back };
    match scan_part(MAX_DEPTH, None, octets) {
        None => None,
        Some(rest) => match body_of(octets) {
            None => None,
            Some(composite) => Some(Found {
                used: len(octets) - len(rest),
                is_transfer: is_transfer(composite),
            }),
        },
    }
}

fn is_transfer(composite: Composite) -> bool
    ensures { result ≡ is_transfer_type composite }
{
    matches!(composite, Composite::Transfer)
}
