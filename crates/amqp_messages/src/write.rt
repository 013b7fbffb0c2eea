//! Messages and how they are written, in their canonical encoding.
ghost use Rattle.std.specs.Prelude.{◌≡◌, ◌↔◌, ℕ, List, [], Some, None, Err, IfOk, OnOk, OnErr, vec_capacity};
ghost use Rattle.amqp_types.specs.Canon.{Writes, Appends, capped};
ghost use Rattle.amqp_messages.specs.Sections.{SectionData, seen};
ghost use Rattle.amqp_messages.specs.Messages.{seen_all, IsMessage};
ghost use Rattle.amqp_messages.specs.Written.{section_form, sections_form, message_form, is_message, bare_form, bare_forms};

use crate::message::Message;
use crate::order::{is_of_body, may_follow};
use crate::section::Section;
use amqp_types::{MAX_DEPTH, WriteFault, append_value, size_within};
use std::alloc::Global;

fn are_ordered(sections: &[Section]) -> bool
    ensures { result ≡ is_message (seen_all sections.now) }
{
    let mut last = None;
    let mut has_body = false;
    for section in sections {
        if !may_follow(last, section.kind) {
            return false;
        }
        last = Some(section.kind);
        has_body = has_body | is_of_body(section.kind);
    }
    has_body
}

fn section_size(section: &Section) -> Option<u64>
    ensures { result ≡ capped (section_form (seen section.now)) }
{
    if !section.kind.takes(&section.body) {
        return None;
    }
    let size = size_within(MAX_DEPTH - 1, &section.body)?;
    Some(size.saturating_add(3))
}

fn sections_size(sections: &[Section]) -> Option<u64>
    ensures { result ≡ capped (sections_form (seen_all sections.now)) }
{
    let mut size: u64 = 0;
    for section in sections {
        let more = section_size(section)?;
        size = size.saturating_add(more);
    }
    Some(size)
}

fn put_section(section: &Section, out: &mut Vec<u8>) -> Result<(), WriteFault>
    ensures { Writes (bare_form (seen section.now)) result out.old.items out.new.items }
{
    out.extend_from_slice(&[0x00, 0x53, section.kind.number()])?;
    append_value(&section.body, out)
}

fn put_sections(sections: &[Section], out: &mut Vec<u8>) -> Result<(), WriteFault>
    ensures { Writes (bare_forms (seen_all sections.now)) result out.old.items out.new.items }
{
    for section in sections {
        put_section(section, out)?;
    }
    Ok(())
}

/// Returns the number of octets that [`write_message`] writes, at most `u64::MAX`, without allocating.
///
/// Returns `None` exactly if the message cannot be written: its sections are out of order, none of them is a body, or
/// one has a body that its kind does not take, that has no canonical encoding or is nested more than 31 deep. The cost
/// grows with the number of values and the length of strings and symbols, not with the length of binaries.
pub fn message_size(message: &Message) -> Option<u64>
    ensures { result ≡ capped (message_form (seen_all message.now.sections)) }
{
    let sections = message.sections.as_slice();
    if are_ordered(sections) {
        sections_size(sections)
    } else {
        None
    }
}

// An empty buffer with room for the octets of the message, and for no more.
fn buffer_for(alloc: Global, message: &Message) -> Result<Vec<u8>, WriteFault>
    ensures room { IfOk result (λ octets. Some (vec_capacity octets) ≡ capped (message_form (seen_all message.now.sections))) }
    ensures empty { IfOk result (λ octets. octets.items ≡ []) }
    ensures refused { (result ≡ Err WriteFault.NotWritable) ↔ (message_form (seen_all message.now.sections) ≡ None) }
{
    let Some(size) = message_size(message) else {
        return Err(WriteFault::NotWritable);
    };
    match Vec::with_capacity(alloc, size as usize) {
        Ok(octets) => Ok(octets),
        Err(_) => Err(WriteFault::NoMemory),
    }
}

/// Appends the message to `out`, with the shortest format code that fits for each value (part 1, 1.6).
///
/// Each descriptor is written as its number. The message is encoded into a temporary buffer that is allocated once, and
/// then copied to `out`. If an error is returned, the contents of `out` are unchanged.
///
/// # Errors
///
/// - [`WriteFault::NotWritable`] exactly if [`message_size`] returns `None`
/// - [`WriteFault::NoMemory`] if memory runs out
pub fn write_message(message: &Message, out: &mut Vec<u8>) -> Result<(), WriteFault>
    ensures ok { OnOk result (Appends (message_form (seen_all message.now.sections)) out.old.items out.new.items) }
    ensures refused { (result ≡ Err WriteFault.NotWritable) ↔ (message_form (seen_all message.now.sections) ≡ None) }
    ensures err { OnErr result (out.new.items ≡ out.old.items) }
{
    let mut octets = match buffer_for(*out.allocator(), message) {
        Ok(octets) => octets,
        Err(fault) => return Err(fault),
    };
    match put_sections(message.sections.as_slice(), &mut octets) {
        Ok(()) => {
            out.extend_from_slice(&octets)?;
            Ok(())
        }
        Err(_) => Err(WriteFault::NoMemory),
    }
}

/// States that a written message is read back: the octets spell a message of the same sections, and of no others.
///
/// This is a law for proofs: a call does nothing.
pub fn message_read_back()
    ensures there { (ss : List SectionData) (x : List ℕ) → message_form ss ≡ Some x → IsMessage ss x }
    ensures alone { (ss ts : List SectionData) (x : List ℕ) → IsMessage ss x → IsMessage ts x → ts ≡ ss }
{}
