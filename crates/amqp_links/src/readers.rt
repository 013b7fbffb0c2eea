//! What a link is asked.
ghost use Rattle.std.specs.Prelude.{◌≡◌, is_some, length, option_map};
ghost use Rattle.amqp_rules.specs.Status.{drain_of, link_status, phase_of};
ghost use Rattle.amqp_rules.specs.View.{is_offered_as, is_ours, max_of, rcv_mode, rcv_of, snd_mode, snd_of};
ghost use Rattle.amqp_links.specs.Credits.{role_of, credit_in};

use crate::credit::Credit;
use crate::end::End;
use crate::link::Link;
use crate::marks::Sending;
use amqp_performatives::Role;
use amqp_rules::status::{LinkPhase, LinkStatus};
use amqp_types::Text;

fn snd_of(end: &Option<End>) -> u8
    ensures { result ≡ snd_of end.now }
{
    match end {
        Some(end) => end.snd_mode,
        None => 2,
    }
}

fn rcv_of(end: &Option<End>) -> u8
    ensures { result ≡ rcv_of end.now }
{
    match end {
        Some(end) => end.rcv_mode,
        None => 0,
    }
}

fn max_of(end: &Option<End>) -> u64
    ensures { result ≡ max_of end.now }
{
    match end {
        Some(end) => end.max_message,
        None => 0,
    }
}

/// A sender is wished to drain; a receiver's drain is open.
fn drain_of(credit: &Credit) -> bool
    ensures { result ≡ drain_of (role_of credit.now) (credit_in credit.now) }
{
    match credit {
        Credit::Sending(credit) => credit.is_draining(),
        Credit::Receiving(credit) => credit.is_draining(),
    }
}

impl Link {
    /// Of this role and name, offered by the peer.
    pub fn is_offered_as(&self, role: Role, name: &Text) -> bool
        ensures { result ≡ is_offered_as role name.now self.now }
    {
        self.has_name(role, name) && self.theirs.is_some() && self.ours.is_none()
    }

    /// Of this role and name, with an attach of ours.
    pub fn is_ours_as(&self, role: Role, name: &Text) -> bool
        ensures { result ≡ is_ours role name.now self.now }
    {
        self.has_name(role, name) && self.ours.is_some()
    }

    /// The sender's settle mode: 0 unsettled, 1 settled, 2 mixed (part 2, 2.8.2).
    pub fn snd_mode(&self) -> u8
        ensures { result ≡ snd_mode self.now }
    {
        match self.credit.role() {
            Role::Sender => snd_of(&self.ours),
            Role::Receiver => snd_of(&self.theirs),
        }
    }

    /// The receiver's settle mode: 0 first, 1 second (part 2, 2.8.3).
    pub fn rcv_mode(&self) -> u8
        ensures { result ≡ rcv_mode self.now }
    {
        match self.credit.role() {
            Role::Sender => rcv_of(&self.theirs),
            Role::Receiver => rcv_of(&self.ours),
        }
    }

    /// The longest message that the peer takes, in octets; 0: no limit.
    pub fn longest_theirs(&self) -> u64
        ensures { result ≡ max_of self.now.theirs }
    {
        max_of(&self.theirs)
    }

    /// The longest message that we take, in octets; 0: no limit.
    pub fn longest_ours(&self) -> u64
        ensures { result ≡ max_of self.now.ours }
    {
        max_of(&self.ours)
    }

    /// Our role on it.
    pub fn role(&self) -> Role
        ensures { result ≡ self.now.role }
    {
        self.credit.role()
    }

    /// How many deliveries may still begin.
    pub fn credit(&self) -> u32
        ensures { result ≡ self.now.credit.credit }
    {
        match &self.credit {
            Credit::Sending(credit) => credit.credit(),
            Credit::Receiving(credit) => credit.credit(),
        }
    }

    /// The delivery of ours that is unfinished.
    pub fn sending(&self) -> Option<Sending>
        ensures { result ≡ self.now.sending }
    {
        self.sending
    }

    fn phase(&self) -> LinkPhase
        ensures { result ≡ phase_of self.now }
    {
        if self.left {
            LinkPhase::Leaving
        } else if self.ours.is_none() {
            LinkPhase::Offered
        } else if self.theirs.is_some() {
            LinkPhase::Attached
        } else {
            LinkPhase::Asked
        }
    }

    /// What our attach told that stays with it, source and target among it (part 2, 2.7.3). None until it was sent.
    pub fn ours(&self) -> Option<&End>
        ensures { option_map (λ e. e.now) result ≡ self.now.ours }
    {
        self.ours.as_ref()
    }

    /// What the peer's attach told that stays with it, source and target among it (part 2, 2.7.3). None until it was heard.
    pub fn theirs(&self) -> Option<&End>
        ensures { option_map (λ e. e.now) result ≡ self.now.theirs }
    {
        self.theirs.as_ref()
    }

    /// The link as it stands.
    pub fn status(&self) -> LinkStatus
        ensures { result ≡ link_status self.now }
    {
        let (count, credit) = match &self.credit {
            Credit::Sending(credit) => (credit.count(), credit.credit()),
            Credit::Receiving(credit) => (credit.count(), credit.credit()),
        };
        LinkStatus {
            role: self.credit.role(),
            phase: self.phase(),
            count,
            credit,
            drain: drain_of(&self.credit),
            mid: self.sending.is_some() || self.receiving.is_some(),
            ready: self.ready.len(),
        }
    }
}
