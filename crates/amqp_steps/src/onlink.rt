//! A link that an operation is taken on.
ghost use Rattle.std.specs.Prelude.{◌≡◌};

use amqp_links::fate::Fate;
use amqp_links::marks::Marks;

/// A link that an operation is taken on: where it was found, our handle of it, and its marks after it.
#[derive(Clone, Copy)]
pub struct OnLink {
    pub key: usize,
    pub handle: u32,
    pub marks: Marks,
}

impl OnLink {
    /// What becomes of it, which has this number.
    pub fn fate(&self, number: u32) -> Fate
        ensures { result ≡ Fate.Marked self.now.key number self.now.marks }
    {
        Fate::Marked {
            key: self.key,
            number,
            marks: self.marks,
        }
    }
}
