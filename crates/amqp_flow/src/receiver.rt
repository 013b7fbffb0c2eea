//! The credit of a receiving link (part 2, 2.6.7).
ghost use Rattle.std.specs.Prelude.{◌≡◌, ◌<◌, true, false, Some, None, MatchResult, OnOk, OnErr};
ghost use Rattle.amqp_flow.specs.Credit.{delivery_count, no_credit, count_given, delivery_begun};
ghost use Rattle.amqp_flow.specs.Receiver.{has_open_drain, grant_refusal, granted, count_is_ahead, count_lead, jump, receiver_heard};

use crate::flow::LinkFlow;
use crate::refusal::{CountAhead, GrantRefusal, NoCredit};
use crate::serial::Serial;
use std::marker::Model;

/// The credit of a receiving link (part 2, 2.6.7), counted in deliveries.
#[derive(Clone, Copy, Debug)]
pub struct ReceiverCredit {
    first_count: Serial,
    passed: u32,
    credit: u32,
    drain: bool,
}

impl Model for ReceiverCredit {
    ghost use Rattle.amqp_flow.specs.Credit.{CreditView};

    ghost Value = { CreditView };

    ghost view = { λ c. record { first_count = c.first_count; passed = c.passed; credit = c.credit; drain = c.drain } };

    ghost inverse = { λ c. record { first_count = c.first_count; passed = c.passed; credit = c.credit; drain = c.drain } };
}

const _: () = prove!(ReceiverCredit::MAX_GRANT == 2_147_483_647);

impl ReceiverCredit {
    /// The most credit that is granted at once: 2147483647, one less than half of the circle of serial numbers.
    pub const MAX_GRANT: u32 = Serial::HALF - 1;

    /// A link without credit, whose delivery-count begins at `count`: that of the peer's attach, 0 before it.
    pub fn new(count: u32) -> ReceiverCredit
        ensures { result ≡ no_credit count }
    {
        ReceiverCredit {
            first_count: Serial(count),
            passed: 0,
            credit: 0,
            drain: false,
        }
    }

    /// The peer's attach is heard: the delivery-count begins at `count`.
    pub fn on_attach(&mut self, count: u32)
        ensures { self.new ≡ count_given count self.old }
    {
        self.first_count = Serial(count);
    }

    /// The first refusal that a grant of `credit` would meet.
    pub fn grant_refusal(&self, credit: u32) -> Option<GrantRefusal>
        ensures { result ≡ grant_refusal credit self.now }
    {
        if credit > ReceiverCredit::MAX_GRANT {
            return Some(GrantRefusal::BadCredit);
        }
        if credit < self.credit {
            return Some(GrantRefusal::CreditRecedes);
        }
        if self.is_draining() {
            return Some(GrantRefusal::Draining);
        }
        None
    }

    /// The peer may begin `credit` deliveries from now on, and with `drain` is to use them up or give them up at once
    /// (part 2, 2.6.7). Credit once granted is not taken back.
    pub fn grant(&mut self, credit: u32, drain: bool) -> Result<(), GrantRefusal>
        ensures refusal { MatchResult result (λ _. grant_refusal credit self.old ≡ None) (λ e. grant_refusal credit self.old ≡ Some e) }
        ensures granted { OnOk result (self.new ≡ granted credit drain self.old) }
        ensures err { OnErr result (self.new ≡ self.old) }
    {
        if let Some(refusal) = self.grant_refusal(credit) {
            return Err(refusal);
        }
        self.credit = credit;
        self.drain = drain;
        Ok(())
    }

    /// A delivery of the peer begins: delivery-count goes up by one, link-credit down by one (part 2, 2.6.7).
    pub fn begin(&mut self) -> Result<(), NoCredit>
        ensures credit { MatchResult result (λ _. 0 < self.old.credit) (λ _. self.old.credit ≡ 0) }
        ensures begun { OnOk result (self.new ≡ delivery_begun self.old) }
        ensures err { OnErr result (self.new ≡ self.old) }
    {
        if self.credit == 0 {
            return Err(NoCredit);
        }
        self.passed = self.passed.wrapping_add(1);
        self.credit -= 1;
        Ok(())
    }

    /// Whether the flow's delivery-count is past ours by more than the credit.
    pub fn is_ahead(&self, flow: &LinkFlow) -> bool
        ensures { result ≡ count_is_ahead flow.now.delivery_count self.now }
    {
        match flow.delivery_count {
            None => false,
            Some(count) => {
                let lead = self.lead(count);
                self.credit < lead && lead < Serial::HALF
            }
        }
    }

    /// A flow is heard: delivery-count becomes the sender's, which gave up as much link-credit (part 2, 2.6.7).
    /// A delivery-count that is past ours by more than the credit is refused; an older or absent one changes nothing.
    pub fn on_flow(&mut self, flow: &LinkFlow) -> Result<(), CountAhead>
        ensures ahead { MatchResult result (λ _. count_is_ahead flow.now.delivery_count self.old ≡ false) (λ _. count_is_ahead flow.now.delivery_count self.old ≡ true) }
        ensures heard { OnOk result (self.new ≡ receiver_heard flow.now self.old) }
        ensures err { OnErr result (self.new ≡ self.old) }
    {
        if self.is_ahead(flow) {
            return Err(CountAhead);
        }
        let jump = self.jump(flow);
        self.passed = self.passed.wrapping_add(jump);
        self.credit -= jump;
        Ok(())
    }

    /// How many deliveries the flow gives up.
    fn jump(&self, flow: &LinkFlow) -> u32
        ensures { result ≡ jump flow.now.delivery_count self.now }
    {
        let lead = flow.delivery_count.map_or(0, |count| self.lead(count));
        if lead <= self.credit { lead } else { 0 }
    }

    /// How far `count` is past our delivery-count.
    fn lead(&self, count: u32) -> u32
        ensures { result ≡ count_lead count self.now }
    {
        let ours = self.first_count.plus(self.passed);
        ours.distance(Serial(count))
    }

    /// The initial delivery-count.
    pub fn first_count(&self) -> u32
        ensures { result ≡ self.now.first_count }
    {
        self.first_count.0
    }

    /// The delivery-count.
    pub fn count(&self) -> u32
        ensures { result ≡ delivery_count self.now }
    {
        let count = self.first_count.plus(self.passed);
        count.0
    }

    /// How many deliveries may still begin.
    pub fn credit(&self) -> u32
        ensures { result ≡ self.now.credit }
    {
        self.credit
    }

    /// Whether a drain is open: the last grant asked for it, and some of its credit is left.
    pub fn is_draining(&self) -> bool
        ensures { result ≡ has_open_drain self.now }
    {
        self.drain && self.credit > 0
    }
}
