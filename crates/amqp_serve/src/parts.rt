//! The transfers in which a message goes (part 2, 2.6.14).
ghost use Rattle.std.specs.Prelude.{◌≡◌, IfOk};
ghost use Rattle.amqp_serve.specs.Parts.{follows, first_transfer, next_transfer};

use crate::returning::Sending;
use amqp_policy::{has_more, part};
use amqp_rules::op::Op;
use amqp_types::Tag;
use std::alloc::AllocError;

fn follows(went: usize, part: usize, one: &Sending) -> bool
    ensures { result ≡ follows went part one.now }
{
    has_more(one.octets.len(), went, part)
}

/// Returns the first transfer of a message, with at most `most` octets.
pub fn first_transfer(link: u32, most: usize, tag: Tag, one: &Sending) -> Result<Op, AllocError>
    ensures { IfOk result (λ op. op ≡ first_transfer link most tag one.now) }
{
    let payload = part(&one.octets, 0, most)?;
    Ok(Op::Start {
        link,
        tag,
        format: one.message.format,
        settled: false,
        payload,
        more: follows(0, most, one),
    })
}

/// Returns the next transfer of a message of which `went` octets went, with at most `most` octets.
pub fn next_transfer(link: u32, most: usize, went: usize, one: &Sending) -> Result<Op, AllocError>
    ensures { IfOk result (λ op. op ≡ next_transfer link most went one.now) }
{
    let payload = part(&one.octets, went, most)?;
    Ok(Op::Carry {
        link,
        payload,
        more: follows(went, most, one),
    })
}
