//! The credit of our end of a link, by which its role is told.
ghost use Rattle.std.specs.Prelude.{◌≡◌, MatchOption, false};
ghost use Rattle.amqp_flow.specs.Credit.{count_given, no_credit};
ghost use Rattle.amqp_links.specs.Credits.{credit_in, role_of};
ghost use Rattle.amqp_rules.specs.View.{same_role, opposite};

use amqp_flow::receiver::ReceiverCredit;
use amqp_flow::sender::SenderCredit;
use amqp_performatives::Role;

/// The credit of our end of a link (part 2, 2.6.7).
#[derive(Clone, Copy)]
pub enum Credit {
    Sending(SenderCredit),
    Receiving(ReceiverCredit),
}

fn sender_counted(mut credit: SenderCredit, count: u32) -> SenderCredit
    ensures { result ≡ count_given count credit }
{
    credit.on_attach(count);
    credit
}

fn receiver_counted(mut credit: ReceiverCredit, count: u32) -> ReceiverCredit
    ensures { result ≡ count_given count credit }
{
    credit.on_attach(count);
    credit
}

/// The two roles are one.
pub fn same_role(a: Role, b: Role) -> bool
    ensures { result ≡ same_role a b }
{
    match a {
        Role::Sender => match b {
            Role::Sender => true,
            Role::Receiver => false,
        },
        Role::Receiver => match b {
            Role::Sender => false,
            Role::Receiver => true,
        },
    }
}

/// The role of the other end.
pub fn opposite(role: Role) -> Role
    ensures { result ≡ opposite role }
{
    match role {
        Role::Sender => Role::Receiver,
        Role::Receiver => Role::Sender,
    }
}

impl Credit {
    /// The role of the link that it counts for.
    pub fn role(&self) -> Role
        ensures { result ≡ role_of self.now }
    {
        match self {
            Credit::Sending(_) => Role::Sender,
            Credit::Receiving(_) => Role::Receiver,
        }
    }

    /// A link's first delivery-count is told.
    pub fn counted(&self, count: u32) -> Credit
        ensures role { role_of result ≡ role_of self.now }
        ensures credit { credit_in result ≡ count_given count (credit_in self.now) }
    {
        match self {
            Credit::Sending(credit) => Credit::Sending(sender_counted(*credit, count)),
            Credit::Receiving(credit) => Credit::Receiving(receiver_counted(*credit, count)),
        }
    }

    /// No credit, at an end of this role.
    pub fn none(role: Role) -> Credit
        ensures role { role_of result ≡ role }
        ensures credit { credit_in result ≡ no_credit 0 }
    {
        match role {
            Role::Sender => Credit::Sending(SenderCredit::new(0)),
            Role::Receiver => Credit::Receiving(ReceiverCredit::new(0)),
        }
    }

    /// That of a sender.
    pub fn sending(&self) -> Option<SenderCredit>
        ensures { MatchOption result (same_role Role.Sender (role_of self.now) ≡ false) (λ c. self.now ≡ Credit.Sending c) }
    {
        match self {
            Credit::Sending(credit) => Some(*credit),
            Credit::Receiving(_) => None,
        }
    }

    /// That of a receiver.
    pub fn receiving(&self) -> Option<ReceiverCredit>
        ensures { MatchOption result (same_role Role.Receiver (role_of self.now) ≡ false) (λ c. self.now ≡ Credit.Receiving c) }
    {
        match self {
            Credit::Sending(_) => None,
            Credit::Receiving(credit) => Some(*credit),
        }
    }
}
