//! The windows of a session (part 2, 2.5.6).
ghost use Rattle.std.specs.Prelude.{◌≡◌, ◌<◌, ◌+◌, ◌-◌, ◌^◌, true, false, MatchResult, OnOk, OnErr};
ghost use Rattle.amqp_flow.specs.Windows.{
  next_outgoing,
  unused_windows,
  windows_sent,
  windows_received,
  windows_renewed,
  windows_told,
  windows_begun,
  windows_heard,
  session_lag,
  session_is_ahead,
  known,
};

use crate::flow::SessionFlow;
use crate::refusal::CountAhead;
use crate::serial::Serial;
use std::marker::Model;

/// The windows of a session (part 2, 2.5.6), counted in transfers.
#[derive(Clone, Copy, Debug)]
pub struct Windows {
    first: Serial,
    window: u32,
    sent: u32,
    next_incoming: Option<Serial>,
    incoming: u32,
    remote_incoming: u32,
    remote_outgoing: u32,
}

impl Model for Windows {
    ghost use Rattle.amqp_flow.specs.Windows.{WindowsView};

    ghost Value = { WindowsView };

    ghost view = { λ w. record { first = w.first; window = w.window; sent = w.sent; next_incoming = w.next_incoming; incoming = w.incoming; remote_incoming = w.remote_incoming; remote_outgoing = w.remote_outgoing } };

    ghost inverse = { λ w. record { first = w.first; window = w.window; sent = w.sent; next_incoming = w.next_incoming; incoming = w.incoming; remote_incoming = w.remote_incoming; remote_outgoing = w.remote_outgoing } };
}

impl Windows {
    /// A session whose first transfer gets the id `first`, and which takes `window` transfers at a time. The peer's
    /// windows are 0 until its begin is heard.
    pub fn new(first: u32, window: u32) -> Windows
        ensures { result ≡ unused_windows first window }
    {
        Windows {
            first: Serial(first),
            window,
            sent: 0,
            next_incoming: None,
            incoming: window,
            remote_incoming: 0,
            remote_outgoing: 0,
        }
    }

    /// A transfer goes out: next-outgoing-id goes up by one, remote-incoming-window down by one (part 2, 2.5.6).
    /// The conditions keep to the peer's window, and to 2^31 transfers in a session.
    pub fn sent(&mut self)
        requires window { 0 < self.old.remote_incoming }
        requires count { self.old.sent < 2 ^ 31 }
        ensures { self.new ≡ windows_sent self.old }
    {
        self.sent += 1;
        self.remote_incoming -= 1;
    }

    /// A transfer is heard, within our window: next-incoming-id goes up by one, incoming-window and
    /// remote-outgoing-window down by one (part 2, 2.5.6). The latter is recorded, not enforced, and stays at 0.
    pub fn received(&mut self)
        requires { 0 < self.old.incoming }
        ensures { self.new ≡ windows_received self.old }
    {
        self.next_incoming = self.next_incoming.map(|id| id.plus(1));
        self.incoming -= 1;
        self.remote_outgoing = self.remote_outgoing.saturating_sub(1);
    }

    /// A begin or a flow goes out and tells our whole incoming-window anew (part 2, 2.5.6).
    pub fn renew(&mut self)
        ensures { self.new ≡ windows_renewed self.old }
    {
        self.incoming = self.window;
    }

    /// The peer's begin is heard: next-incoming-id, remote-incoming-window and remote-outgoing-window are its
    /// next-outgoing-id, incoming-window and outgoing-window (part 2, 2.5.6). The incoming one counts from our first
    /// transfer.
    pub fn on_begin(&mut self, next_outgoing_id: u32, incoming_window: u32, outgoing_window: u32)
        ensures { self.new ≡ windows_begun next_outgoing_id incoming_window outgoing_window self.old }
    {
        let remote_incoming = incoming_window.saturating_sub(self.sent);
        self.take_told(next_outgoing_id, remote_incoming, outgoing_window);
    }

    /// A flow is heard before our begin went out: it tells what a begin does, and its next-incoming-id is not read.
    pub fn on_early_flow(&mut self, flow: &SessionFlow)
        ensures { self.new ≡ windows_begun flow.now.next_outgoing_id flow.now.incoming_window flow.now.outgoing_window self.old }
    {
        self.on_begin(
            flow.next_outgoing_id,
            flow.incoming_window,
            flow.outgoing_window,
        );
    }

    /// Whether the peer awaits a transfer that lies past our next one. Its next-incoming-id is then none of the ids
    /// from our first one to our next one.
    pub fn is_ahead(&self, flow: &SessionFlow) -> bool
        ensures { result ≡ session_is_ahead flow.now self.now }
    {
        self.lag(flow) > self.sent
    }

    /// A flow is heard: remote-incoming-window is its next-incoming-id (our first one, where that is absent) plus its
    /// incoming-window less our next-outgoing-id, at least 0; next-incoming-id and remote-outgoing-window are its
    /// next-outgoing-id and outgoing-window (part 2, 2.5.6).
    pub fn on_flow(&mut self, flow: &SessionFlow) -> Result<(), CountAhead>
        ensures ahead { MatchResult result (λ _. session_is_ahead flow.now self.old ≡ false) (λ _. session_is_ahead flow.now self.old ≡ true) }
        ensures heard { OnOk result (self.new ≡ windows_heard flow.now self.old) }
        ensures counted { OnOk result (self.new.remote_incoming ≡ known self.old.first self.old.sent flow.now - self.old.sent) }
        ensures err { OnErr result (self.new ≡ self.old) }
    {
        let lag = self.lag(flow);
        if lag > self.sent {
            return Err(CountAhead);
        }
        let remote_incoming = flow.incoming_window.saturating_sub(lag);
        self.take_told(flow.next_outgoing_id, remote_incoming, flow.outgoing_window);
        Ok(())
    }

    fn take_told(&mut self, next_incoming: u32, remote_incoming: u32, remote_outgoing: u32)
        ensures { self.new ≡ windows_told next_incoming remote_incoming remote_outgoing self.old }
    {
        self.next_incoming = Some(Serial(next_incoming));
        self.remote_incoming = remote_incoming;
        self.remote_outgoing = remote_outgoing;
    }

    /// How far our next transfer is past the one that the peer awaits.
    fn lag(&self, flow: &SessionFlow) -> u32
        ensures { result ≡ session_lag flow.now self.now }
    {
        let awaited = flow.next_incoming_id.map_or(self.first, |id| Serial(id));
        awaited.distance(self.first.plus(self.sent))
    }

    /// The id of our first transfer.
    pub fn first(&self) -> u32
        ensures { result ≡ self.now.first }
    {
        self.first.0
    }

    /// The incoming window that each begin and flow of ours tells.
    pub fn window(&self) -> u32
        ensures { result ≡ self.now.window }
    {
        self.window
    }

    /// How many transfers went out.
    pub fn transfers_sent(&self) -> u32
        ensures { result ≡ self.now.sent }
    {
        self.sent
    }

    /// The id of the peer's next transfer, once its begin was heard.
    pub fn next_incoming(&self) -> Option<u32>
        ensures { result ≡ self.now.next_incoming }
    {
        self.next_incoming.map(|id| id.0)
    }

    /// How many transfers we still take.
    pub fn incoming(&self) -> u32
        ensures { result ≡ self.now.incoming }
    {
        self.incoming
    }

    /// The id of our next transfer.
    pub fn next_outgoing(&self) -> u32
        ensures { result ≡ next_outgoing self.now }
    {
        let next = self.first.plus(self.sent);
        next.0
    }

    /// How many transfers the peer still takes.
    pub fn remote_incoming(&self) -> u32
        ensures { result ≡ self.now.remote_incoming }
    {
        self.remote_incoming
    }

    /// How many transfers the peer was ready to send.
    pub fn remote_outgoing(&self) -> u32
        ensures { result ≡ self.now.remote_outgoing }
    {
        self.remote_outgoing
    }
}
