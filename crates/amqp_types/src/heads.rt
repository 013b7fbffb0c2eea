//! Reads what comes before the parts of a list or of a described value, so that a caller can read the parts one by one.
ghost use Rattle.std.specs.Prelude.{◌≡◌, ◌≤◌, ◌+◌, ℕ, List, length, Some, None, MatchOption};
ghost use Rattle.amqp_types.specs.Heads.{IsListHead, HasNoList, IsDescriptor};
ghost use Rattle.amqp_types.specs.Reading.{compound_at};
ghost use Rattle.amqp_types.specs.Grammar.{IsFront};
ghost use Rattle.amqp_types.specs.Datum.{octets};
ghost use Rattle.amqp_types.specs.declared.class.Run.{Run};
ghost use Rattle.amqp_types.specs.declared.class.Width.{Width};

use crate::class::Width;
use crate::fields::{read_symbol, read_ulong};
use crate::parts::compound;

/// Locates the items of a list in the octets that the list was read from. Offsets are in octets.
#[derive(Clone, Copy, Debug, PartialEq, Eq)]
pub struct ListHead {
    /// The number of items.
    pub count: usize,
    /// The offset at which the first item begins.
    pub start: usize,
    /// The offset at which the last item, and so the list, must end.
    pub end: usize,
}

/// Returns the head of the list at the start of `bytes` (part 1, 1.6.22).
///
/// Does not read the items: the list is valid only if `count` items, read in turn from `start`, end exactly at `end`.
/// Returns `None` if `bytes` does not begin with the format code of a list and a valid size and count, or ends before
/// the content does.
#[inline(always)]
pub fn read_list_head(bytes: &[u8]) -> Option<ListHead>
    ensures { MatchOption result (HasNoList bytes.now) (λ head. IsListHead bytes.now head.count head.start head.end) }
{
    let (code, rest) = bytes.split_first()?;
    match *code {
        0x45 => Some(ListHead {
            count: 0,
            start: 1,
            end: 1,
        }),
        0xc0 => read_compound_head(Width::One, rest, bytes.len()),
        0xd0 => wide_head(rest, bytes.len()),
        _ => None,
    }
}

/// Out of line, because lists with a size of four octets are rare.
#[inline(never)]
fn wide_head(body: &[u8], whole: usize) -> Option<ListHead>
    requires { whole ≡ length body.now + 1 }
    ensures { MatchOption result (compound_at Width.Four body.now ≡ None) (λ head. (content after : List ℕ) × (compound_at Width.Four body.now ≡ Some ((head.count, content), after))
        × (head.end + length after ≡ whole) × (head.start + length content ≡ head.end)) }
{
    read_compound_head(Width::Four, body, whole)
}

#[inline]
fn read_compound_head(width: Width, body: &[u8], whole: usize) -> Option<ListHead>
    requires { whole ≡ length body.now + 1 }
    ensures { MatchOption result (compound_at width body.now ≡ None) (λ head. (content after : List ℕ) × (compound_at width body.now ≡ Some ((head.count, content), after))
        × (head.end + length after ≡ whole) × (head.start + length content ≡ head.end)) }
{
    match compound(body, width) {
        None => None,
        Some((count, content, after)) => {
            let end = whole - after.len();
            Some(ListHead {
                count: count as usize,
                start: end - content.len(),
                end,
            })
        }
    }
}

/// Identifies a composite type, by its number or by its symbolic name (part 1, 1.5).
#[derive(Clone, Copy, Debug)]
pub enum Descriptor<'a> {
    /// The descriptor as a ulong.
    Number(u64),
    /// The descriptor as a symbol.
    Name(&'a str),
}

/// Returns the descriptor of the described value at the start of `bytes` (part 1, 1.5).
///
/// Also returns the number of octets before the value that it describes: the leading 00 and the descriptor. Returns
/// `None` if `bytes` does not begin with 00 and a ulong or a symbol. The value that follows is not read.
#[inline(always)]
pub fn read_descriptor(bytes: &[u8]) -> Option<(Descriptor<'_>, usize)>
    ensures { IsDescriptor bytes.now result }
{
    let (code, rest) = bytes.split_first()?;
    if *code != 0 {
        return None;
    }
    match read_ulong(rest) {
        Some((number, used)) => Some((Descriptor::Number(number), 1 + used)),
        None => match read_name(rest) {
            Some((name, used)) => Some((Descriptor::Name(name), 1 + used)),
            None => None,
        },
    }
}

/// Out of line, because descriptors are rarely symbols.
#[inline(never)]
fn read_name(bytes: &[u8]) -> Option<(&str, usize)>
    ensures { IsFront (λ text. octets Run.Symbol text.now) bytes.now result }
{
    read_symbol(bytes)
}
