//! Delivery tags.
ghost use Rattle.std.specs.Prelude.{◌≡◌, ◌<◌, ◌≤◌, [], length, MatchOption};

use std::fmt;
use std::marker::Model;

/// A delivery tag of at most 32 octets (OASIS AMQP 1.0, part 2, section 2.8.7). Contracts see it as its octets.
#[derive(Clone, Copy)]
pub struct Tag {
    octets: [u8; Tag::MAX_LEN],
    used: u8,
}

impl Model for Tag {
    ghost use Rattle.std.specs.Prelude.{List, ℕ, take, length};

    ghost Value = { List ℕ };

    ghost use Rattle.amqp_types.specs.Tag.{IsPadded, padded, padded-take};

    ghost view = { λ t. take t.used t.octets };

    ghost invariant = { λ t. IsPadded t.octets t.used };

    ghost inverse = { λ octets. record { octets = padded octets; used = length octets } };

    ghost inverse_ok = { λ t padded. padded-take t padded };
}

impl Tag {
    /// The greatest number of octets in a tag.
    pub const MAX_LEN: usize = 32;

    /// Returns the tag with these octets, or `None` if there are more than [`Tag::MAX_LEN`].
    pub fn new(octets: &[u8]) -> Option<Tag>
        ensures { MatchOption result (32 < length octets.now) (λ t. (t ≡ octets.now) × (length t ≤ 32)) }
    {
        if octets.len() > Tag::MAX_LEN {
            return None;
        }
        let mut tag = Tag::empty();
        tag.set(octets);
        Some(tag)
    }

    /// Returns the tag without octets.
    #[inline(always)]
    pub fn empty() -> Tag
        ensures { result ≡ [] }
    {
        Tag {
            octets: [0u8; Tag::MAX_LEN],
            used: 0,
        }
    }

    /// Replaces the octets of the tag in place. The contract requires at most [`Tag::MAX_LEN`] octets.
    #[inline(always)]
    pub fn set(&mut self, octets: &[u8])
        requires { length octets.now ≤ 32 }
        ensures { self.new ≡ octets.now }
    {
        self.octets = [0u8; Tag::MAX_LEN];
        self.octets[..octets.len()].copy_from_slice(octets);
        self.used = octets.len() as u8;
    }

    /// Returns the octets of the tag, at most [`Tag::MAX_LEN`].
    pub fn octets(&self) -> &[u8]
        ensures value { result.now ≡ self.now }
        ensures short { length result.now ≤ 32 }
    {
        &self.octets[..self.used as usize]
    }
}

// The limit of the standard (part 2, 2.8.7).
const _: () = prove!(Tag::MAX_LEN == 32);

impl PartialEq for Tag {
    ghost use Rattle.std.specs.Cmp.{partial_equiv_from_equiv};
    ghost use Rattle.std.specs.Cmp.Lexicographic.{pointwise, nat_list_eq_equiv};
    ghost use Rattle.std.specs.Prelude.{nat_eq};

    ghost eq = { pointwise nat_eq };

    ghost laws = { partial_equiv_from_equiv nat_list_eq_equiv };

    fn eq(&self, other: &Tag) -> bool {
        self.octets() == other.octets()
    }
}

impl Eq for Tag {
    ghost use Rattle.std.specs.Cmp.Lexicographic.{nat_list_eq_equiv};

    ghost laws = { nat_list_eq_equiv };
}

/// Prints the octets in hexadecimal, two digits each.
impl fmt::Debug for Tag {
    fn fmt<W: fmt::Write>(&self, f: &mut fmt::Formatter<W>) -> fmt::Result {
        for octet in self.octets() {
            write!(f, "{octet:02x}")?;
        }
        Ok(())
    }
}
