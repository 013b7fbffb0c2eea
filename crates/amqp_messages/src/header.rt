//! The header section of a message by its fields.
ghost use Rattle.std.specs.Prelude.{◌≡◌, MatchOption, IfOk};
ghost use Rattle.amqp_types.specs.Datum.{list};
ghost use Rattle.amqp_types.specs.View.{views};
ghost use Rattle.amqp_performatives.specs.Part.{FitInOrder, canonical_fields};
ghost use Rattle.amqp_messages.specs.Sections.{seen};
ghost use Rattle.amqp_messages.specs.Lending.{fields_at};
ghost use Rattle.amqp_messages.specs.Headers.{header_fields};

use crate::field::{are_null, boolean, ubyte, uint};
use crate::kind::SectionKind;
use crate::lent::{self, Lent, list_of};
use crate::section::Section;
use amqp_types::Value;
use std::alloc::{AllocError, Global};

/// The fields of a header section (part 3, 3.2.1). An absent field is `None`: the default is not filled in.
#[derive(Clone, Copy, Debug, PartialEq, Eq)]
pub struct Header {
    /// Whether the message is durable. The default is false.
    pub durable: Option<bool>,
    /// The priority; a higher number is more urgent. The default is 4.
    pub priority: Option<u8>,
    /// The time to live, in milliseconds.
    pub ttl: Option<u32>,
    /// Whether no other link acquired the message before. The default is false.
    pub first_acquirer: Option<bool>,
    /// The number of earlier delivery attempts that failed. The default is 0.
    pub delivery_count: Option<u32>,
}

impl Header {
    /// Reads a header from the values of a header section's list.
    ///
    /// Fields may be null, and fields at the end may be left off. Returns `None` exactly if the values are not
    /// the fields of a header: a field has another type, or a value that is not null follows the last field.
    pub fn read(items: &[Value]) -> Option<Header>
        ensures { MatchOption result ((h : Header) → FitInOrder (header_fields h) (views items.now) → ⊥) (λ h. FitInOrder (header_fields h) (views items.now)) }
    {
        let (durable, items) = boolean(items)?;
        let (priority, items) = ubyte(items)?;
        let (ttl, items) = uint(items)?;
        let (first_acquirer, items) = boolean(items)?;
        let (delivery_count, items) = uint(items)?;
        if !are_null(items) {
            return None;
        }
        Some(Header {
            durable,
            priority,
            ttl,
            first_acquirer,
            delivery_count,
        })
    }

    /// Returns the header section that has these fields. An absent field is null, or left off at the end.
    ///
    /// # Errors
    ///
    /// [`AllocError`] if memory runs out.
    pub fn to_section(&self, alloc: Global) -> Result<Section, AllocError>
        ensures { IfOk result (λ section. seen section ≡ (SectionKind.Header, list (canonical_fields (header_fields self.now)))) }
    {
        let items = list_of(alloc, &self.fields())?;
        Ok(Section {
            kind: SectionKind::Header,
            body: Value::List(items),
        })
    }

    fn fields(&self) -> [Lent<'static>; 5]
        ensures { fields_at result ≡ header_fields self.now }
    {
        [
            lent::boolean(self.durable),
            lent::ubyte(self.priority),
            lent::uint(self.ttl),
            lent::boolean(self.first_acquirer),
            lent::uint(self.delivery_count),
        ]
    }
}
