//! The table of composite types: each is a described list (part 1, 1.4), known by the number or the name of its descriptor.
ghost use Rattle.std.specs.Prelude.{◌≡◌, ◌<◌, ◌↔◌, IsTrue};
ghost use Rattle.amqp_types.specs.Heads.{datum_of};
ghost use Rattle.amqp_performatives.specs.Part.{IsDescriptor};
ghost use Rattle.amqp_performatives.specs.Composite.{type_of};

use amqp_types::Descriptor;

/// A performative (part 2, 2.7), the error (part 2, 2.8.14) or a delivery state (part 3, 3.4).
#[derive(Clone, Copy, Debug, PartialEq, Eq)]
pub enum Composite {
    Open,
    Begin,
    Attach,
    Flow,
    Transfer,
    Disposition,
    Detach,
    End,
    Close,
    Error,
    Received,
    Accepted,
    Rejected,
    Released,
    Modified,
}

impl Composite {
    /// The number of its descriptor, a ulong. All are of AMQP's own domain, and so below 256.
    #[inline]
    pub fn number(self) -> u8
        ensures value { result ≡ (type_of self).0 }
        ensures some { 0 < result }
    {
        match self {
            Composite::Open => 0x10,
            Composite::Begin => 0x11,
            Composite::Attach => 0x12,
            Composite::Flow => 0x13,
            Composite::Transfer => 0x14,
            Composite::Disposition => 0x15,
            Composite::Detach => 0x16,
            Composite::End => 0x17,
            Composite::Close => 0x18,
            Composite::Error => 0x1d,
            Composite::Received => 0x23,
            Composite::Accepted => 0x24,
            Composite::Rejected => 0x25,
            Composite::Released => 0x26,
            Composite::Modified => 0x27,
        }
    }

    /// The name of its descriptor, a symbol.
    #[inline]
    pub fn name(self) -> &'static str
        ensures { result.now ≡ (type_of self).1 }
    {
        match self {
            Composite::Open => "amqp:open:list",
            Composite::Begin => "amqp:begin:list",
            Composite::Attach => "amqp:attach:list",
            Composite::Flow => "amqp:flow:list",
            Composite::Transfer => "amqp:transfer:list",
            Composite::Disposition => "amqp:disposition:list",
            Composite::Detach => "amqp:detach:list",
            Composite::End => "amqp:end:list",
            Composite::Close => "amqp:close:list",
            Composite::Error => "amqp:error:list",
            Composite::Received => "amqp:received:list",
            Composite::Accepted => "amqp:accepted:list",
            Composite::Rejected => "amqp:rejected:list",
            Composite::Released => "amqp:released:list",
            Composite::Modified => "amqp:modified:list",
        }
    }

    /// Whether the descriptor is that of the type: its number or its name.
    #[inline]
    pub fn is_named(self, descriptor: Descriptor<'_>) -> bool
        ensures { IsTrue result ↔ IsDescriptor (type_of self) (datum_of descriptor.entry) }
    {
        match descriptor {
            Descriptor::Number(number) => number == u64::from(self.number()),
            Descriptor::Name(name) => name == self.name(),
        }
    }
}
