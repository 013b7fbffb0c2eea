//! The credit that a grant gives, and the flow that tells it (part 2, 2.6.7).
ghost use Rattle.std.specs.Prelude.{◌≡◌, Some, None, MatchResult};
ghost use Rattle.amqp_flow.specs.Receiver.{granted};
ghost use Rattle.amqp_rules.specs.Grant.{grant_flow};
ghost use Rattle.amqp_rules.specs.Refusing.{first_refusal};
ghost use Rattle.amqp_rules.specs.View.{LinkView, handle_of};
ghost use Rattle.amqp_links.specs.Marks.{with_marks};
ghost use Rattle.amqp_steps.specs.Taking.{grant_rows};

use crate::telling::{flag, link_flow};
use amqp_flow::receiver::ReceiverCredit;
use amqp_flow::refusal::GrantRefusal;
use amqp_flow::windows::Windows;
use amqp_frames::FlowBody;
use amqp_links::marks::Marks;
use amqp_rules::refusal::Refusal;

/// The credit after the grant, or why it is refused.
pub fn granted(
    mut receiver: ReceiverCredit,
    credit: u32,
    drain: bool,
) -> Result<ReceiverCredit, Refusal>
    ensures { MatchResult result (λ c. (first_refusal (grant_rows receiver credit) ≡ None) × (c ≡ granted credit drain receiver)) (λ e. first_refusal (grant_rows receiver credit) ≡ Some e) }
{
    match receiver.grant(credit, drain) {
        Ok(()) => Ok(receiver),
        Err(GrantRefusal::BadCredit) => Err(Refusal::BadCredit),
        Err(GrantRefusal::CreditRecedes) => Err(Refusal::CreditRecedes),
        Err(GrantRefusal::Draining) => Err(Refusal::Draining),
    }
}

/// The flow that tells the credit of the link with these marks.
pub fn grant_flow(
    windows: &Windows,
    handle: u32,
    marks: &Marks,
    drain: bool,
    echo: bool,
) -> FlowBody
    ensures { (l : LinkView) → handle ≡ handle_of l.ours → result ≡ grant_flow windows.now (with_marks marks.now l) drain echo }
{
    let mut told = link_flow(windows, handle, marks);
    told.drain = flag(drain);
    told.echo = flag(echo);
    told
}
