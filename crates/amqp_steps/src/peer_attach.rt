//! What an attach that is heard tells of its end (part 2, 2.6.3 and 2.7.3).
ghost use Rattle.std.specs.Prelude.{◌≡◌, IfOk, cond};
ghost use Rattle.amqp_flow.specs.Credit.{count_given};
ghost use Rattle.amqp_links.specs.Credits.{credit_in, role_of};
ghost use Rattle.amqp_rules.specs.Attach.{count_of, end_of};
ghost use Rattle.amqp_rules.specs.PeerAttach.{lacks_count};
ghost use Rattle.amqp_rules.specs.View.{is_sender};

use amqp_frames::{AttachBody, Role};
use amqp_links::credit::Credit;
use amqp_links::end::End;
use amqp_links::link::Link;
use amqp_links::marks::Marks;
use amqp_performatives::copying::copy_value;
use std::alloc::AllocError;

/// A link that an attach answers: it, where it is, its number, and its marks after the attach.
#[derive(Clone, Copy)]
pub struct Answered<'a> {
    pub link: &'a Link,
    pub key: usize,
    pub number: u32,
    pub marks: Marks,
}

/// What the attach of an end tells that stays with the link.
pub fn end_of(b: &AttachBody) -> Result<End, AllocError>
    ensures { IfOk result (λ end. end ≡ end_of b.now) }
{
    let source = copy_value(&b.source)?;
    let target = copy_value(&b.target)?;
    Ok(End {
        handle: b.handle,
        snd_mode: b.snd_settle_mode.unwrap_or(2),
        rcv_mode: b.rcv_settle_mode.unwrap_or(0),
        max_message: b.max_message_size.unwrap_or(0),
        source,
        target,
    })
}

/// A sender tells its first delivery-count.
pub fn lacks_count(b: &AttachBody) -> bool
    ensures { result ≡ lacks_count b.now }
{
    match b.role {
        Role::Sender => b.initial_delivery_count.is_none(),
        Role::Receiver => false,
    }
}

/// The credit after the attach: it tells the count where we receive.
pub fn counted(b: &AttachBody, credit: &Credit) -> Credit
    ensures role { role_of result ≡ role_of credit.now }
    ensures credit { credit_in result ≡ cond (is_sender (role_of credit.now)) (credit_in credit.now) (count_given (count_of b.now) (credit_in credit.now)) }
{
    match credit.role() {
        Role::Sender => *credit,
        Role::Receiver => credit.counted(b.initial_delivery_count.unwrap_or(0)),
    }
}
