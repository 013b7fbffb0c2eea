//! The order of a message's sections (part 3, 3.2).
ghost use Rattle.std.specs.Prelude.{◌≡◌, MatchResult};
ghost use Rattle.amqp_messages.specs.Messages.{rank, repeats, may_follow, is_of_body, IsSome, Refuses};

use crate::fault::MessageFault;
use crate::kind::SectionKind;
use crate::section::find_section;

// Data, amqp-sequence and amqp-value share a rank, because a message has only one of these kinds.
fn rank(kind: SectionKind) -> u8
    ensures { result ≡ rank kind }
{
    match kind {
        SectionKind::Header => 0,
        SectionKind::DeliveryAnnotations => 1,
        SectionKind::MessageAnnotations => 2,
        SectionKind::Properties => 3,
        SectionKind::ApplicationProperties => 4,
        SectionKind::Data | SectionKind::AmqpSequence | SectionKind::AmqpValue => 5,
        SectionKind::Footer => 6,
    }
}

// A body may be several data sections or several amqp-sequence sections; every other section comes once at most.
fn repeats(before: SectionKind, kind: SectionKind) -> bool
    ensures { result ≡ repeats before kind }
{
    match before {
        SectionKind::Data => matches!(kind, SectionKind::Data),
        SectionKind::AmqpSequence => matches!(kind, SectionKind::AmqpSequence),
        _ => false,
    }
}

/// Returns true if a section of this kind may follow one of kind `last`. `None` means that the section is the first.
pub(crate) fn may_follow(last: Option<SectionKind>, kind: SectionKind) -> bool
    ensures { result ≡ may_follow last kind }
{
    match last {
        None => true,
        Some(before) => rank(before) < rank(kind) || repeats(before, kind),
    }
}

pub(crate) fn is_of_body(kind: SectionKind) -> bool
    ensures { result ≡ is_of_body kind }
{
    match kind {
        SectionKind::Data | SectionKind::AmqpSequence | SectionKind::AmqpValue => true,
        _ => false,
    }
}

/// Checks that the octets spell a message, in one pass and without allocating. Never returns `NoMemory`.
pub(crate) fn check_octets(octets: &[u8]) -> Result<(), MessageFault>
    ensures { MatchResult result (λ _. IsSome octets.now) (λ fault. Refuses octets.now fault) }
{
    let mut at = 0;
    let mut last = None;
    let mut has_body = false;
    while at < octets.len() {
        let Some(place) = find_section(&octets[at..]) else {
            return Err(MessageFault::NoSection { at });
        };
        if !may_follow(last, place.kind) {
            return Err(MessageFault::OutOfOrder { at });
        }
        last = Some(place.kind);
        has_body = has_body | is_of_body(place.kind);
        at += place.end;
    }
    if has_body {
        Ok(())
    } else {
        Err(MessageFault::NoBody)
    }
}
