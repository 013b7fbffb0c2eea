//! Which tags are in use on which link.
ghost use Rattle.std.specs.Prelude.{◌≡◌, ◌++◌, ◌∷◌, ◌≤◌, [], List, length, true, false, MatchOption, OnOk, OnErr};
ghost use Rattle.amqp_events.specs.Told.{SentItem};
ghost use Rattle.amqp_deliveries.specs.Held.{unlinked, HasItsTag};
ghost use Rattle.amqp_deliveries.specs.Brief.{padded, is_brief};
ghost use Rattle.amqp_deliveries.specs.Tags.{has_key, IsIndex};

use crate::item::Entry;
use amqp_types::Tag;
use std::alloc::{AllocError, Global};
use std::collections::HashSet;
use std::hash::{Hash, Hasher};

/// A tag on its link.
#[derive(Clone, Copy)]
struct Key {
    link: u32,
    tag: Tag,
}

impl PartialEq for Key {
    ghost use Rattle.std.specs.Prelude.{nat_eq};
    ghost use Rattle.std.specs.Ordering.{on, eq_of_both};
    ghost use Rattle.std.specs.Cmp.Lexicographic.{pointwise};
    ghost use Rattle.std.specs.Cmp.Rules.{comparing};
    ghost use Rattle.std.proofs.Common.{rules};

    ghost eq = { eq_of_both (on (λ k. k.link) nat_eq) (on (λ k. k.tag) (pointwise nat_eq)) };

    ghost laws = { Prim.search (comparing, rules) };

    fn eq(&self, other: &Key) -> bool {
        self.link == other.link && self.tag.octets() == other.tag.octets()
    }
}

impl Eq for Key {
    ghost use Rattle.std.specs.Cmp.Rules.{comparing};
    ghost use Rattle.std.proofs.Common.{rules};

    ghost laws = { Prim.search (comparing, rules) };
}

/// The octets of the tag go to the hasher in one write.
impl Hash for Key {
    ghost use Rattle.std.specs.Prelude.{◌++◌, ◌∷◌, []};
    ghost use Rattle.std.specs.Hash as fed;
    ghost use Rattle.std.specs.Cmp.Rules.{hashing};
    ghost use Rattle.std.specs.Cmp.{unsigned_Decides};
    ghost use Rattle.std.specs.Cmp.Lexicographic.{bytes_decides};
    ghost use Rattle.std.proofs.Common.{rules};

    ghost hash_input = { λ k. fed.u32 k.link ++ k.tag ∷ [] };

    ghost respects_eq = { Prim.search (hashing, unsigned_Decides, bytes_decides, rules) };

    fn hash<H: Hasher>(&self, state: &mut H) {
        state.write_u32(self.link);
        state.write(self.tag.octets());
    }
}

/// A tag of at most eight octets on its link: shorter to keep, its octets hashed as one number.
#[derive(Clone, Copy, PartialEq, Eq)]
struct Brief {
    link: u32,
    used: u8,
    /// With zeros behind.
    octets: [u8; 8],
}

impl Hash for Brief {
    ghost use Rattle.std.specs.Prelude.{◌++◌};
    ghost use Rattle.std.specs.Int.{from_le_bytes, w64};
    ghost use Rattle.std.specs.Hash as fed;
    ghost use Rattle.amqp_deliveries.specs.Brief.{fed_alike};

    ghost hash_input = { λ k. fed.u32 k.link ++ fed.u64 (from_le_bytes w64 k.octets) };

    ghost respects_eq = { λ x y same. fed_alike x.link y.link x.used y.used x.octets y.octets same };

    fn hash<H: Hasher>(&self, state: &mut H) {
        state.write_u32(self.link);
        state.write_u64(u64::from_le_bytes(self.octets));
    }
}

/// The tags in use: those of at most eight octets, as a delivery's number has, and all others.
#[derive(Drop)]
pub(crate) struct TagIndex {
    brief: HashSet<Brief>,
    keys: HashSet<Key>,
}

/// At most eight octets, with zeros behind them. Four, as a number of 32 bits has, move at once.
#[inline(always)]
fn padded(octets: &[u8]) -> [u8; 8]
    requires { length octets.now ≤ 8 }
    ensures { result ≡ padded octets.now }
{
    if octets.len() != 4 {
        return padded_any(octets);
    }
    let mut all = [0; 8];
    all[..4].copy_from_slice(&octets[..4]);
    all
}

#[inline(never)]
fn padded_any(octets: &[u8]) -> [u8; 8]
    requires { length octets.now ≤ 8 }
    ensures { result ≡ padded octets.now }
{
    let mut all = [0; 8];
    all[..octets.len()].copy_from_slice(octets);
    all
}

/// The tag on its link, where it is that short.
#[inline(always)]
fn brief_of(link: u32, tag: &Tag) -> Option<Brief>
    ensures { MatchOption result (is_brief tag.now ≡ false) (λ k. (k.link ≡ link) × (k.used ≡ length tag.now) × (k.octets ≡ padded tag.now) × (is_brief tag.now ≡ true)) }
{
    let octets = tag.octets();
    if octets.len() > 8 {
        return None;
    }
    Some(Brief {
        link,
        used: octets.len() as u8,
        octets: padded(octets),
    })
}

fn key_of(entry: &Entry) -> Key
    ensures { (result.link ≡ entry.now.item.link) × (result.tag ≡ entry.now.item.tag) }
{
    Key {
        link: entry.link(),
        tag: entry.tag(),
    }
}

impl TagIndex {
    /// No tags. It allocates nothing.
    pub(crate) fn new(alloc: Global) -> TagIndex
        ensures { IsIndex result [] }
    {
        TagIndex {
            brief: HashSet::new(alloc),
            keys: HashSet::new(alloc),
        }
    }

    /// Whether the tag is in use on the link.
    pub(crate) fn has(&self, link: u32, tag: &Tag) -> bool
        ensures { result ≡ has_key self.now link tag.now }
    {
        match brief_of(link, tag) {
            Some(key) => self.brief.contains(&key),
            None => self.keys.contains(&Key { link, tag: *tag }),
        }
    }

    /// One more delivery is held.
    pub(crate) fn put(&mut self, entry: &Entry) -> Result<(), AllocError>
        ensures ok { (items : List SentItem) → IsIndex self.old items → OnOk result (IsIndex self.new (items ++ entry.now ∷ [])) }
        ensures err { (items : List SentItem) → IsIndex self.old items → OnErr result (IsIndex self.new items) }
    {
        match brief_of(entry.link(), &entry.tag()) {
            Some(key) => self.brief.insert(key)?,
            None => self.keys.insert(key_of(entry))?,
        };
        Ok(())
    }

    /// A delivery is not held any more.
    pub(crate) fn remove(&mut self, entry: &Entry)
        ensures { (before after : List SentItem) → HasItsTag before entry.now.item after → IsIndex self.old (before ++ entry.now ∷ after) → IsIndex self.new (before ++ after) }
    {
        match brief_of(entry.link(), &entry.tag()) {
            Some(key) => self.brief.remove(&key),
            None => self.keys.remove(&key_of(entry)),
        };
    }

    /// No delivery of the link is held any more.
    pub(crate) fn remove_link(&mut self, link: u32)
        ensures { (items : List SentItem) → IsIndex self.old items → IsIndex self.new (unlinked link items) }
    {
        self.brief.retain(|key| key.link != link);
        self.keys.retain(|key| key.link != link);
    }

    /// No delivery is held any more.
    pub(crate) fn clear(&mut self)
        ensures { IsIndex self.new [] }
    {
        self.brief.clear();
        self.keys.clear();
    }
}
