//! The credit of a sending link (part 2, 2.6.7).
ghost use Rattle.std.specs.Prelude.{◌≡◌, ◌<◌, true, false, MatchResult, OnOk, OnErr};
ghost use Rattle.amqp_flow.specs.Credit.{delivery_count, no_credit, count_given, delivery_begun};
ghost use Rattle.amqp_flow.specs.Sender.{link_lag, link_is_ahead, credit_told, sender_heard, sender_heard_early, sender_drained};

use crate::flow::LinkFlow;
use crate::refusal::{CountAhead, NoCredit};
use crate::serial::Serial;
use std::marker::Model;

/// The credit of a sending link (part 2, 2.6.7), counted in deliveries.
#[derive(Clone, Copy, Debug)]
pub struct SenderCredit {
    first_count: Serial,
    passed: u32,
    credit: u32,
    drain: bool,
}

impl Model for SenderCredit {
    ghost use Rattle.amqp_flow.specs.Credit.{CreditView};

    ghost Value = { CreditView };

    ghost view = { λ c. record { first_count = c.first_count; passed = c.passed; credit = c.credit; drain = c.drain } };

    ghost inverse = { λ c. record { first_count = c.first_count; passed = c.passed; credit = c.credit; drain = c.drain } };
}

impl SenderCredit {
    /// A link without credit, whose delivery-count begins at `count`: that of our attach, 0 before it.
    pub fn new(count: u32) -> SenderCredit
        ensures { result ≡ no_credit count }
    {
        SenderCredit {
            first_count: Serial(count),
            passed: 0,
            credit: 0,
            drain: false,
        }
    }

    /// Our attach goes out on a link that the peer offered: the delivery-count begins at `count`, and what
    /// the peer granted before stands.
    pub fn on_attach(&mut self, count: u32)
        ensures { self.new ≡ count_given count self.old }
    {
        self.first_count = Serial(count);
    }

    /// A delivery begins: delivery-count goes up by one, link-credit down by one (part 2, 2.6.7).
    pub fn begin(&mut self) -> Result<(), NoCredit>
        ensures credit { MatchResult result (λ _. 0 < self.old.credit) (λ _. self.old.credit ≡ 0) }
        ensures begun { OnOk result (self.new ≡ delivery_begun self.old) }
        ensures err { OnErr result (self.new ≡ self.old) }
    {
        if self.credit == 0 {
            return Err(NoCredit);
        }
        self.passed = self.passed.wrapping_add(1);
        self.credit -= 1;
        Ok(())
    }

    /// The credit that is left is given up, as the receiver's drain asks: delivery-count goes up by the link-credit,
    /// which becomes 0 (part 2, 2.6.7).
    pub fn drain(&mut self)
        ensures { self.new ≡ sender_drained self.old }
    {
        self.passed = self.passed.wrapping_add(self.credit);
        self.credit = 0;
        self.drain = false;
    }

    /// Whether the flow counts deliveries that did not begin yet: its delivery-count is past ours.
    pub fn is_ahead(&self, flow: &LinkFlow) -> bool
        ensures { result ≡ link_is_ahead flow.now self.now }
    {
        self.lag(flow) >= Serial::HALF
    }

    /// A flow is heard: link-credit is its delivery-count (our initial one, where that is absent) plus its link-credit
    /// less our delivery-count, at least 0 (part 2, 2.6.7). A flow without link-credit changes the wish to drain alone.
    pub fn on_flow(&mut self, flow: &LinkFlow) -> Result<(), CountAhead>
        ensures ahead { MatchResult result (λ _. link_is_ahead flow.now self.old ≡ false) (λ _. link_is_ahead flow.now self.old ≡ true) }
        ensures heard { OnOk result (self.new ≡ sender_heard flow.now self.old) }
        ensures err { OnErr result (self.new ≡ self.old) }
    {
        if self.is_ahead(flow) {
            return Err(CountAhead);
        }
        let lag = self.lag(flow);
        self.take_told(flow, lag);
        Ok(())
    }

    /// A flow is heard before our attach went out: its delivery-count is not read.
    pub fn on_early_flow(&mut self, flow: &LinkFlow)
        ensures { self.new ≡ sender_heard_early flow.now self.old }
    {
        self.take_told(flow, 0);
    }

    fn take_told(&mut self, flow: &LinkFlow, lag: u32)
        ensures { self.new ≡ credit_told flow.now lag self.old }
    {
        if let Some(credit) = flow.link_credit {
            self.credit = credit.saturating_sub(lag);
        }
        self.drain = flow.drain;
    }

    /// How far our delivery-count is past the flow's.
    fn lag(&self, flow: &LinkFlow) -> u32
        ensures { result ≡ link_lag flow.now self.now }
    {
        let heard = flow
            .delivery_count
            .map_or(self.first_count, |count| Serial(count));
        heard.distance(self.first_count.plus(self.passed))
    }

    /// The initial delivery-count.
    pub fn first_count(&self) -> u32
        ensures { result ≡ self.now.first_count }
    {
        self.first_count.0
    }

    /// The delivery-count.
    pub fn count(&self) -> u32
        ensures { result ≡ delivery_count self.now }
    {
        let count = self.first_count.plus(self.passed);
        count.0
    }

    /// How many deliveries may still begin.
    pub fn credit(&self) -> u32
        ensures { result ≡ self.now.credit }
    {
        self.credit
    }

    /// Whether the receiver wishes the credit to be used up or given up.
    pub fn is_draining(&self) -> bool
        ensures { result ≡ self.now.drain }
    {
        self.drain
    }
}
