//! Whole messages and how they are read.
ghost use Rattle.std.specs.Prelude.{◌≡◌, IfOk, List, [], ◌∷◌, option_map};
ghost use Rattle.amqp_types.specs.declared.class.Run.{Run};
ghost use Rattle.amqp_types.specs.Datum.{octets};
ghost use Rattle.amqp_types.specs.View.{view};
ghost use Rattle.amqp_messages.specs.Sections.{SectionData};
ghost use Rattle.amqp_messages.specs.Messages.{seen_all, AreSections, IsMessage, ReadsMessage, Finds, first_of};

use crate::fault::MessageFault;
use crate::kind::SectionKind;
use crate::order::check_octets;
use crate::section::{Section, read_section};
use amqp_types::{Items, Value};
use bytes::Bytes;
use std::alloc::{AllocError, Global};

/// A message as a sequence of sections (part 3, 3.2).
///
/// [`read_message`] returns only messages with the sections in order and a body. A `Message` that a program builds may
/// break these rules; [`write_message`](crate::write_message) then refuses it.
#[derive(Debug, PartialEq, Eq, Drop)]
pub struct Message {
    /// The sections, in the order in which they are written.
    pub sections: Items<Section>,
}

impl Message {
    /// Returns a message of one data section that holds `payload`. Does not copy the payload.
    ///
    /// # Errors
    ///
    /// [`AllocError`] if memory runs out.
    pub fn of_data(alloc: Global, payload: Bytes) -> Result<Message, AllocError>
        ensures { IfOk result (λ message. seen_all message.sections ≡ (SectionKind.Data, octets Run.Binary payload) ∷ []) }
    {
        let mut sections = Items::new(alloc);
        sections.push(Section {
            kind: SectionKind::Data,
            body: Value::Binary(payload),
        })?;
        Ok(Message { sections })
    }

    /// Returns the body of the first section of this kind, or `None` if there is none. O(n) in the number of sections.
    pub fn find(&self, kind: SectionKind) -> Option<&Value>
        ensures { option_map (λ body. view body.now) result ≡ first_of kind (seen_all self.now.sections) }
    {
        find_in(self.sections.as_slice(), kind)
    }
}

fn find_in(sections: &[Section], kind: SectionKind) -> Option<&Value>
    ensures { option_map (λ body. view body.now) result ≡ first_of kind (seen_all sections.now) }
{
    for section in sections {
        if section.kind.number() == kind.number() {
            return Some(&section.body);
        }
    }
    None
}

// The caller has checked the octets, so that an error of `read_section` is an allocation failure.
fn sections_of(alloc: Global, octets: &Bytes) -> Result<Items<Section>, AllocError>
    ensures { IfOk result (λ sections. AreSections (seen_all sections) octets.now) }
{
    let mut sections = Items::new(alloc);
    let mut from = 0;
    while from < octets.len() {
        match read_section(alloc, octets, from) {
            Ok((section, used)) => {
                sections.push(section)?;
                from += used;
            }
            Err(_) => return Err(AllocError),
        }
    }
    Ok(sections)
}

/// Reads the message that `octets` spell from the first to the last (part 3, 3.2).
///
/// The payload of a data section is a slice of `octets`, not a copy; lists and maps are copied. A first pass checks the
/// whole message before any memory is allocated.
///
/// # Errors
///
/// - [`MessageFault::NoSection`] or [`MessageFault::OutOfOrder`] for the first position where no section begins or one
///   begins that may not follow those before it
/// - [`MessageFault::NoBody`] if the sections are in order but none of them is a body, as when `octets` is empty
/// - [`MessageFault::NoMemory`] if the octets are a message but memory runs out
pub fn read_message(alloc: Global, octets: &Bytes) -> Result<Message, MessageFault>
    ensures answer { ReadsMessage octets.now result }

    // If the octets spell a message, it is the one that is returned, unless memory runs out.
    ensures only { (ss : List SectionData) → IsMessage ss octets.now → Finds ss result }
{
    match check_octets(octets.as_slice()) {
        Err(fault) => Err(fault),
        Ok(()) => match sections_of(alloc, octets) {
            Ok(sections) => Ok(Message { sections }),
            Err(_) => Err(MessageFault::NoMemory),
        },
    }
}
