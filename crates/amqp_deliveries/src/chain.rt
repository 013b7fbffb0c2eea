//! Octets in several slices, compared and looked at however they are cut.
ghost use Rattle.std.specs.Prelude.{◌≡◌, ◌<◌, ◌≤◌, ◌↔◌, [], length, nat_eq, drop, IfSome, IfNone, IsTrue};
ghost use Rattle.std.specs.Cmp.Lexicographic.{pointwise};
ghost use Rattle.amqp_deliveries.specs.Chain.{chain_of};

use bytes::Bytes;

/// Octets in several slices, one after the other.
#[derive(Clone, Copy)]
pub struct Chain<'a> {
    pub front: &'a [u8],
    pub rest: &'a [Bytes],
}

impl<'a> Chain<'a> {
    /// Whether they are just these.
    pub fn is(self, octets: &[u8]) -> bool
        ensures { IsTrue result ↔ chain_of self.entry ≡ octets.now }
    {
        are_same(
            self,
            Chain {
                front: octets,
                rest: &[],
            },
        )
    }

    /// The same octets, some of which are in front; none where there are none.
    pub(crate) fn opened(self) -> Option<Chain<'a>>
        ensures same { IfSome result (λ c. chain_of c ≡ chain_of self.entry) }
        ensures some { IfSome result (λ c. 0 < length c.front.now) }
        ensures none { IfNone result (chain_of self.entry ≡ []) }
    {
        let mut chain = self;
        while chain.front.is_empty() {
            let (first, rest) = chain.rest.split_first()?;
            chain = Chain {
                front: first.as_slice(),
                rest,
            };
        }
        Some(chain)
    }

    /// The octets from this place on.
    pub(crate) fn from(self, from: u64) -> Chain<'a>
        ensures { chain_of result ≡ drop from (chain_of self.entry) }
    {
        let mut chain = self;
        let mut before = from;
        while before > 0 {
            let Some(opened) = chain.opened() else {
                return chain;
            };
            let count = before.min(opened.front.len() as u64);
            chain = opened.after(count as usize);
            before -= count;
        }
        chain
    }

    /// The octets after so many of those in front.
    fn after(self, count: usize) -> Chain<'a>
        requires { count ≤ length self.front.now }
        ensures { chain_of result ≡ drop count (chain_of self.entry) }
    {
        Chain {
            front: &self.front[count..],
            rest: self.rest,
        }
    }
}

/// The octets are the same, however they are cut.
pub fn are_same(one: Chain<'_>, other: Chain<'_>) -> bool
    ensures { result ≡ pointwise nat_eq (chain_of one.entry) (chain_of other.entry) }
{
    let mut left = one;
    let mut right = other;
    loop {
        match (left.opened(), right.opened()) {
            (Some(ours), Some(theirs)) => {
                let count = ours.front.len().min(theirs.front.len());
                if ours.front[..count] != theirs.front[..count] {
                    return false;
                }
                left = ours.after(count);
                right = theirs.after(count);
            }
            (None, None) => return true,
            (Some(_), None) => return false,
            (None, Some(_)) => return false,
        }
    }
}
