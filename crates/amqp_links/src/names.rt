//! The links of each name.
ghost use Rattle.std.specs.Prelude.{◌≡◌, ◌==◌, ◌++◌, ◌∷◌, [], ℕ, List, cond, not, filter, nat_eq, OnOk, OnErr};
ghost use Rattle.std.specs.Cmp.Lexicographic.{pointwise};
ghost use Rattle.amqp_links.specs.Names.{numbers_under};

use amqp_types::Text;
use std::alloc::{AllocError, Global};
use std::collections::BTreeMap;

/// Under each name the numbers of its links, in the order in which they were made. In a session at most two links have one name, one for each role.
///
/// With n names, and m links of the name: a look-up, `put` and `remove` take O(log n + m) steps.
#[derive(Drop)]
pub(crate) struct Names {
    alloc: Global,
    numbers: BTreeMap<String, Vec<u32>>,
}

impl Names {
    /// No name. It allocates nothing.
    pub(crate) fn new(alloc: Global) -> Names
        ensures { (name : List ℕ) → numbers_under result name ≡ [] }
    {
        Names {
            alloc,
            numbers: BTreeMap::new(alloc),
        }
    }

    /// The numbers of the links of this name, in the order in which they were made.
    pub(crate) fn under(&self, name: &Text) -> &[u32]
        ensures { result.now ≡ numbers_under self.now name.now }
    {
        match self.numbers.get(name.as_str()) {
            Some(numbers) => numbers.as_slice(),
            None => &[],
        }
    }

    /// A link more has this name. Where memory is refused, nothing has changed.
    pub(crate) fn put(&mut self, name: &Text, number: u32) -> Result<(), AllocError>
        ensures ok { OnOk result ((q : List ℕ) → numbers_under self.new q ≡ cond (pointwise nat_eq name.now q) (numbers_under self.old q ++ number ∷ []) (numbers_under self.old q)) }
        ensures err { OnErr result ((q : List ℕ) → numbers_under self.new q ≡ numbers_under self.old q) }
    {
        if let Some(numbers) = self.numbers.get_mut(name.as_str()) {
            numbers.push(number)?;
            return Ok(());
        }
        let mut numbers = Vec::new(self.alloc);
        numbers.push(number)?;
        let name = name.clone()?;
        self.numbers.insert(name.into_string(), numbers)?;
        Ok(())
    }

    /// A link of this name is gone.
    pub(crate) fn remove(&mut self, name: &Text, number: u32)
        ensures { (q : List ℕ) → numbers_under self.new q ≡ cond (pointwise nat_eq name.now q) (filter (λ n. not (n == number)) (numbers_under self.old q)) (numbers_under self.old q) }
    {
        let Some(numbers) = self.numbers.get_mut(name.as_str()) else {
            return;
        };
        numbers.retain(|n| *n != number);
        let gone = numbers.is_empty();
        if gone {
            self.numbers.remove(name.as_str());
        }
    }

    /// All are gone.
    pub(crate) fn clear(&mut self)
        ensures { (name : List ℕ) → numbers_under self.new name ≡ [] }
    {
        self.numbers.clear();
    }
}
