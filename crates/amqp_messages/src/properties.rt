//! The properties section of a message by its fields.
ghost use Rattle.std.specs.Prelude.{◌≡◌, MatchOption, IfOk};
ghost use Rattle.amqp_types.specs.Datum.{list};
ghost use Rattle.amqp_types.specs.View.{views};
ghost use Rattle.amqp_performatives.specs.Part.{FitInOrder, canonical_fields};
ghost use Rattle.amqp_messages.specs.Sections.{seen};
ghost use Rattle.amqp_messages.specs.Lending.{fields_at};
ghost use Rattle.amqp_messages.specs.Headers.{properties_fields, IsFairProperties};

use crate::field::{any, are_null, binary, string, symbol, timestamp, uint};
use crate::kind::SectionKind;
use crate::lent::{self, Lent, list_of};
use crate::section::Section;
use amqp_types::Value;
use std::alloc::{AllocError, Global};

/// The fields of a properties section, borrowed (part 3, 3.2.4).
///
/// A field that is absent is `None`. The types of identifiers (`message_id`, `correlation_id`) and addresses (`to`,
/// `reply_to`) are not checked.
#[derive(Clone, Copy, Debug)]
pub struct Properties<'a> {
    /// The identifier of the message: a ulong, a uuid, a binary or a string (part 3, 3.2.11 to 3.2.14).
    pub message_id: Option<&'a Value>,
    /// The identity of the user who created the message.
    pub user_id: Option<&'a [u8]>,
    /// The address of the node that the message is for: a string (part 3, 3.2.15).
    pub to: Option<&'a Value>,
    pub subject: Option<&'a str>,
    /// The address of the node that replies are for: a string (part 3, 3.2.15).
    pub reply_to: Option<&'a Value>,
    /// The identifier that relates this message to another: a ulong, a uuid, a binary or a string.
    pub correlation_id: Option<&'a Value>,
    pub content_type: Option<&'a str>,
    pub content_encoding: Option<&'a str>,
    /// The time when the message expires, in milliseconds since the Unix epoch.
    pub absolute_expiry_time: Option<i64>,
    /// The time when the message was created, in milliseconds since the Unix epoch.
    pub creation_time: Option<i64>,
    pub group_id: Option<&'a str>,
    pub group_sequence: Option<u32>,
    /// The group that replies belong to.
    pub reply_to_group_id: Option<&'a str>,
}

impl<'a> Properties<'a> {
    /// Reads properties from the values of a properties section's list. Does not copy them.
    ///
    /// Fields may be null, and fields at the end may be left off. Returns `None` exactly if the values are not
    /// the fields of properties: a field has another type, or a value that is not null follows the last field.
    pub fn read(items: &'a [Value]) -> Option<Properties<'a>>
        ensures { MatchOption result ((p : Properties) → IsFairProperties p → FitInOrder (properties_fields p) (views items.now) → ⊥) (λ p. IsFairProperties p × FitInOrder (properties_fields p) (views items.now)) }
    {
        let (message_id, items) = any(items)?;
        let (user_id, items) = binary(items)?;
        let (to, items) = any(items)?;
        let (subject, items) = string(items)?;
        let (reply_to, items) = any(items)?;
        let (correlation_id, items) = any(items)?;
        let (content_type, items) = symbol(items)?;
        let (content_encoding, items) = symbol(items)?;
        let (absolute_expiry_time, items) = timestamp(items)?;
        let (creation_time, items) = timestamp(items)?;
        let (group_id, items) = string(items)?;
        let (group_sequence, items) = uint(items)?;
        let (reply_to_group_id, items) = string(items)?;
        if !are_null(items) {
            return None;
        }
        Some(Properties {
            message_id,
            user_id,
            to,
            subject,
            reply_to,
            correlation_id,
            content_type,
            content_encoding,
            absolute_expiry_time,
            creation_time,
            group_id,
            group_sequence,
            reply_to_group_id,
        })
    }

    /// Returns the properties section that has these fields, which are copied. An absent field is null, or left off
    /// at the end.
    ///
    /// # Errors
    ///
    /// [`AllocError`] if memory runs out.
    pub fn to_section(&self, alloc: Global) -> Result<Section, AllocError>
        ensures { IfOk result (λ section. seen section ≡ (SectionKind.Properties, list (canonical_fields (properties_fields self.now)))) }
    {
        let items = list_of(alloc, &self.fields())?;
        Ok(Section {
            kind: SectionKind::Properties,
            body: Value::List(items),
        })
    }

    fn fields(&self) -> [Lent<'a>; 13]
        ensures { fields_at result ≡ properties_fields self.now }
    {
        [
            lent::any(self.message_id),
            lent::binary(self.user_id),
            lent::any(self.to),
            lent::string(self.subject),
            lent::any(self.reply_to),
            lent::any(self.correlation_id),
            lent::symbol(self.content_type),
            lent::symbol(self.content_encoding),
            lent::timestamp(self.absolute_expiry_time),
            lent::timestamp(self.creation_time),
            lent::string(self.group_id),
            lent::uint(self.group_sequence),
            lent::string(self.reply_to_group_id),
        ]
    }
}
