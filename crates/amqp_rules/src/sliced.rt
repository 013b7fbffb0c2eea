//! Octets that are sent, in one slice or in two.
ghost use Rattle.std.specs.Prelude.{◌≡◌, ◌++◌, ◌↔◌, length, option_map, IfOk, IsTrue};
ghost use Rattle.amqp_deliveries.specs.Chain.{chain_of};
ghost use Rattle.amqp_rules.specs.Sliced.{behind};

use amqp_deliveries::{Chain, are_same};
use amqp_types::Boxed;
use bytes::Bytes;
use std::alloc::{AllocError, Global};
use std::marker::Model;
use std::{fmt, slice};

/// Octets that are sent: in one slice, or those before a long payload in one and the payload in another, where it is shared and not copied. Contracts see them as
/// the octets, however they are cut. The second slice stands behind a pointer, since few have one.
#[derive(Drop)]
pub struct Sliced {
    head: Bytes,
    rest: Option<Boxed<Bytes>>,
}

impl Model for Sliced {
    ghost use Rattle.std.specs.Prelude.{List, ℕ, ◌++◌};
    ghost use Rattle.amqp_rules.specs.Sliced.{behind};

    ghost Value = { List ℕ };

    ghost view = { λ s. s.head ++ behind s.rest };
}

impl Sliced {
    /// Octets in one slice. It takes no memory.
    #[inline(always)]
    pub fn one(octets: Bytes) -> Sliced
        ensures { result ≡ octets }
    {
        Sliced {
            head: octets,
            rest: None,
        }
    }

    /// Octets in two slices, the one behind the other.
    pub fn two(alloc: Global, head: Bytes, rest: Bytes) -> Result<Sliced, AllocError>
        ensures { IfOk result (λ octets. octets ≡ head ++ rest) }
    {
        match Boxed::new(alloc, rest) {
            Ok(rest) => Ok(Sliced {
                head,
                rest: Some(rest),
            }),
            Err(error) => {
                drop(head);
                Err(error)
            }
        }
    }

    /// How many octets there are.
    pub fn len(&self) -> usize
        ensures { result ≡ length self.now }
    {
        match &self.rest {
            None => self.head.len(),
            Some(rest) => self.head.len() + rest.get().len(),
        }
    }

    /// The octets, slice by slice.
    pub fn slices(&self) -> (&[u8], &[u8])
        ensures { result.0.now ++ result.1.now ≡ self.now }
    {
        match &self.rest {
            None => (self.head.as_slice(), &[]),
            Some(rest) => (self.head.as_slice(), rest.get().as_slice()),
        }
    }

    /// The handles of the octets, slice by slice.
    #[inline(always)]
    pub fn handles(&self) -> (&Bytes, Option<&Bytes>)
        ensures { result.0.now ++ behind (option_map (λ rest. rest.now) result.1) ≡ self.now }
    {
        match &self.rest {
            None => (&self.head, None),
            Some(rest) => (&self.head, Some(rest.get())),
        }
    }

    /// The octets, slice by slice.
    pub fn into_slices(self) -> (Bytes, Option<Bytes>)
        ensures { result.0 ++ behind result.1 ≡ self }
    {
        let Sliced { head, rest } = self;
        match rest {
            None => (head, None),
            Some(rest) => (head, Some(rest.into_inner())),
        }
    }

    /// Whether they are just these.
    pub fn is(&self, octets: &[u8]) -> bool
        ensures { IsTrue result ↔ self.now ≡ octets.now }
    {
        self.chain().is(octets)
    }

    fn chain(&self) -> Chain<'_>
        ensures { chain_of result ≡ self.now }
    {
        Chain {
            front: self.head.as_slice(),
            rest: match &self.rest {
                None => &[],
                Some(rest) => slice::from_ref(rest.get()),
            },
        }
    }

    /// The octets in one piece. Where they are in one slice it is shared, else they are copied once.
    pub fn join(&self, alloc: Global) -> Result<Bytes, AllocError>
        ensures { IfOk result (λ joined. joined ≡ self.now) }
    {
        let Some(rest) = &self.rest else {
            return self.head.clone();
        };
        let mut all = Vec::with_capacity(alloc, self.len())?;
        all.extend_from_slice(self.head.as_slice())?;
        all.extend_from_slice(rest.get().as_slice())?;
        Ok(Bytes::from_vec(all)?)
    }
}

/// A copy shares the octets. Of those in one slice it takes no memory.
impl Clone for Sliced {
    ghost is_clone = { λ a b. b ≡ a };

    #[inline(always)]
    fn clone(&self) -> Result<Sliced, AllocError> {
        let head = self.head.clone()?;
        match &self.rest {
            None => Ok(Sliced::one(head)),
            Some(rest) => with_rest(head, rest),
        }
    }
}

/// The head with a copy of the rest.
#[inline(never)]
fn with_rest(head: Bytes, rest: &Boxed<Bytes>) -> Result<Sliced, AllocError>
    ensures { IfOk result (λ octets. octets ≡ head ++ rest.now) }
{
    match rest.clone() {
        Ok(rest) => Ok(Sliced {
            head,
            rest: Some(rest),
        }),
        Err(error) => {
            drop(head);
            Err(error)
        }
    }
}

/// Equal octets are equal, however they are cut.
impl PartialEq for Sliced {
    ghost use Rattle.std.specs.Cmp.{partial_equiv_from_equiv};
    ghost use Rattle.std.specs.Cmp.Lexicographic.{pointwise, nat_list_eq_equiv};
    ghost use Rattle.std.specs.Prelude.{nat_eq};

    ghost eq = { pointwise nat_eq };

    ghost laws = { partial_equiv_from_equiv nat_list_eq_equiv };

    fn eq(&self, other: &Sliced) -> bool {
        are_same(self.chain(), other.chain())
    }
}

impl Eq for Sliced {
    ghost use Rattle.std.specs.Cmp.Lexicographic.{nat_list_eq_equiv};

    ghost laws = { nat_list_eq_equiv };
}

/// Each slice in its own form.
impl fmt::Debug for Sliced {
    fn fmt<W: fmt::Write>(&self, f: &mut fmt::Formatter<W>) -> fmt::Result {
        write!(f, "{:?}", self.head)?;
        match &self.rest {
            None => Ok(()),
            Some(rest) => write!(f, " {:?}", rest.get()),
        }
    }
}
