//! Octets in two places, one after the other, read as one list.
ghost use Rattle.std.specs.Prelude.{◌≡◌, ◌≤◌, ◌<◌, ◌-◌, ◌==◌, [], ◌∷◌, ◌++◌, false, MatchOption, nat_le, option_map, length, min, take, replicate};
ghost use Rattle.std.specs.Str.{is_utf8};
ghost use Rattle.amqp_types.specs.Grammar.{is_ascii};
ghost use Rattle.amqp_types.specs.Reading.{split, field_at, compound_at};
ghost use Rattle.amqp_halves.specs.Halves.{whole};

use amqp_types::Width;

#[derive(Clone, Copy)]
pub(crate) struct Halves<'a> {
    pub(crate) front: &'a [u8],
    pub(crate) back: &'a [u8],
}

/// The first octet and those after it.
pub(crate) fn first(octets: Halves<'_>) -> Option<(u8, Halves<'_>)>
    ensures { MatchOption result (whole octets.entry ≡ []) (λ x. whole octets.entry ≡ x.0 ∷ whole x.1) }
{
    match octets.front.split_first() {
        Some((first, rest)) => Some((
            *first,
            Halves {
                front: rest,
                back: octets.back,
            },
        )),
        None => match octets.back.split_first() {
            Some((first, rest)) => Some((
                *first,
                Halves {
                    front: octets.front,
                    back: rest,
                },
            )),
            None => None,
        },
    }
}

/// The first octets, so many, and the rest.
pub(crate) fn split(octets: Halves<'_>, count: usize) -> Option<(Halves<'_>, Halves<'_>)>
    ensures { option_map (λ x. (whole x.0, whole x.1)) result ≡ split count (whole octets.entry) }
{
    let Halves { front, back } = octets;
    if count <= front.len() {
        let (text, rest) = front.split_at(count);
        return Some((
            Halves {
                front: text,
                back: &[],
            },
            Halves { front: rest, back },
        ));
    }
    let more = count - front.len();
    if back.len() < more {
        return None;
    }
    let (text, rest) = back.split_at(more);
    Some((
        Halves { front, back: text },
        Halves {
            front: &[],
            back: rest,
        },
    ))
}

/// The number in front, in this many octets, and the rest.
pub(crate) fn field(octets: Halves<'_>, width: Width) -> Option<(u64, Halves<'_>)>
    ensures { option_map (λ x. (x.0, whole x.1)) result ≡ field_at width (whole octets.entry) }
{
    let count = width.octets();
    match split(octets, count) {
        None => None,
        Some((text, rest)) => {
            let padded = padded(text, count);
            Some((u64::from_be_bytes(padded), rest))
        }
    }
}

/// Octets behind as many zeros as make eight of them.
fn padded(text: Halves<'_>, count: usize) -> [u8; 8]
    requires count { length (whole text) ≡ count }
    requires most { count ≤ 8 }
    ensures { result ≡ replicate (8 - count) 0 ++ whole text.entry }
{
    let mut octets = [0; 8];
    let start = 8 - count;
    let middle = start + text.front.len();
    octets[start..middle].copy_from_slice(text.front);
    octets[middle..].copy_from_slice(text.back);
    octets
}

/// The count and the content, and what follows.
#[tactic(auto, unfolding(amqp_types::specs::Reading::compound_at))]
pub(crate) fn compound(octets: Halves<'_>, width: Width) -> Option<(u64, Halves<'_>, Halves<'_>)>
    ensures { option_map (λ x. ((x.0, whole x.1), whole x.2)) result ≡ compound_at width (whole octets.entry) }
{
    let (size, rest) = field(octets, width)?;
    let (inside, after) = split(rest, size as usize)?;
    let (count, content) = field(inside, width)?;
    Some((count, content, after))
}

pub(crate) fn is_empty(octets: Halves<'_>) -> bool
    ensures { result ≡ (length (whole octets.entry) == 0) }
{
    octets.front.is_empty() && octets.back.is_empty()
}

/// Whether there are so many octets.
pub(crate) fn len_is(octets: Halves<'_>, count: usize) -> bool
    ensures { result ≡ (length (whole octets.entry) == count) }
{
    octets.front.len() <= count && octets.back.len() == count - octets.front.len()
}

fn are_ascii(octets: &[u8]) -> bool
    ensures { result ≡ is_ascii octets.now }
{
    for octet in octets {
        if *octet >= 128 {
            return false;
        }
    }
    true
}

/// Whether each octet is below 128.
pub(crate) fn is_ascii(octets: Halves<'_>) -> bool
    ensures { result ≡ is_ascii (whole octets.entry) }
{
    are_ascii(octets.front) && are_ascii(octets.back)
}

fn are_utf8(octets: &[u8]) -> bool
    ensures { result ≡ is_utf8 octets.now }
{
    match str::from_utf8(octets) {
        Ok(_) => true,
        Err(_) => false,
    }
}

/// The first four octets, or all of them where they are fewer.
fn first_four(octets: Halves<'_>) -> ([u8; 4], usize)
    ensures octets { take result.1 result.0 ≡ take 4 (whole octets.entry) }
    ensures count { result.1 ≡ min 4 (length (whole octets.entry)) }
{
    let mut head = [0; 4];
    let of_front = octets.front.len().min(4);
    let of_back = octets.back.len().min(4 - of_front);
    head[..of_front].copy_from_slice(&octets.front[..of_front]);
    head[of_front..of_front + of_back].copy_from_slice(&octets.back[..of_back]);
    (head, of_front + of_back)
}

/// What follows the character in front. Each has one to four octets.
fn after_char(octets: Halves<'_>) -> Option<Halves<'_>>
    requires { 0 < length (whole octets) }
    ensures { MatchOption result (is_utf8 (whole octets.entry) ≡ false) (λ rest. (is_utf8 (whole rest) ≡ is_utf8 (whole octets.entry)) × (length (whole rest) < length (whole octets.entry))) }
{
    let (head, count) = first_four(octets);
    for less in 0..count {
        if are_utf8(&head[..less + 1]) {
            return match split(octets, less + 1) {
                Some((_, rest)) => Some(rest),
                None => None,
            };
        }
    }
    None
}

/// Whether the octets are a text. A character may lie in both places.
pub(crate) fn is_utf8(octets: Halves<'_>) -> bool
    ensures { result ≡ is_utf8 (whole octets.entry) }
{
    let mut rest = octets;
    while !rest.front.is_empty() {
        match after_char(rest) {
            Some(next) => rest = next,
            None => return false,
        }
    }
    are_utf8(rest.back)
}

/// Whether there are at most 32 octets.
pub(crate) fn is_short(octets: Halves<'_>) -> bool
    ensures { result ≡ nat_le (length (whole octets.entry)) 32 }
{
    octets.front.len() <= 32 && octets.back.len() <= 32 - octets.front.len()
}

pub(crate) fn len(octets: Halves<'_>) -> usize
    ensures { result ≡ length (whole octets.entry) }
{
    octets.front.len() + octets.back.len()
}
