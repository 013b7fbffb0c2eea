//! How a connection and its links stand, as plain numbers.
ghost use Rattle.std.specs.Prelude.{◌≡◌, option_map};
ghost use Rattle.amqp_caller.specs.Numbers.{role_number};
ghost use Rattle.amqp_caller.specs.Reading.{IsConnStatus, IsLinkStatus, idle_told, link_phase_number, max_told};

use crate::caller::{Caller, phase_of};
use crate::event::id_number;
use amqp_conn::{Link, OpenBody, Role};
use amqp_rules::status::LinkPhase;

/// How a connection stands.
#[repr(C)]
#[derive(Clone, Copy, Drop)]
pub struct ConnStatus {
    /// The phase of the connection: 1 awaits the header, 2 awaits the open, 3 is running, 4 is closing, 5 is closed.
    pub phase: u32,
    /// How many steps more the connection takes.
    pub steps_left: u32,
    /// The id of the transfer that is heard next, if `begun`.
    pub next_in: u32,
    /// How many transfers we still take.
    pub incoming: u32,
    /// The id of the transfer that is sent next.
    pub next_out: u32,
    /// How many transfers the peer still takes.
    pub remote_in: u32,
    /// The id of the delivery that is begun next.
    pub next_delivery: u32,
    /// The longest frame that the peer takes, in octets; 0 before its open.
    pub peer_max_frame: u32,
    /// The idle time-out that the peer announced, in milliseconds; 0 for none.
    pub peer_idle_time_out: u32,
    /// How many units wait to be written.
    pub units: u64,
    /// How many octets the units have that wait to be written.
    pub octets: u64,
    /// How many octets are left of the unit that is being written.
    pub unwritten: u64,
    /// How many deliveries that we sent are unsettled.
    pub sent_unsettled: u64,
    /// How many deliveries that we received are unsettled.
    pub received_unsettled: u64,
    /// The peer has begun the session.
    pub begun: bool,
}

/// How a link stands (part 2, 2.6).
#[repr(C)]
#[derive(Clone, Copy, Drop)]
pub struct LinkStatus {
    /// Our role: 0 sender, 1 receiver.
    pub role: u32,
    /// 1 our attach was sent, 2 the peer's was heard, 3 attached, 4 our detach was sent.
    pub phase: u32,
    /// The delivery-count.
    pub count: u32,
    /// How many deliveries may still begin.
    pub credit: u32,
    /// The peer's handle; [`NONE`](crate::NONE) before its attach.
    pub peer_handle: u32,
    /// How many deliveries wait to be taken.
    pub ready: u64,
    /// The longest message that the peer takes, in octets; 0 for no limit.
    pub peer_max_message: u64,
    /// The longest message that we take, in octets; 0 for no limit.
    pub max_message: u64,
    /// The sender's settle mode: 0 unsettled, 1 settled, 2 mixed.
    pub snd: u8,
    /// The receiver's settle mode: 0 first, 1 second.
    pub rcv: u8,
    /// A sender is asked to drain; a receiver awaits the end of a drain.
    pub drain: bool,
    /// A delivery is unfinished.
    pub mid: bool,
}

fn role_number(role: Role) -> u32
    ensures { result ≡ role_number role }
{
    match role {
        Role::Sender => 0,
        Role::Receiver => 1,
    }
}

fn link_phase_number(phase: LinkPhase) -> u32
    ensures { result ≡ link_phase_number phase }
{
    match phase {
        LinkPhase::Asked => 1,
        LinkPhase::Offered => 2,
        LinkPhase::Attached => 3,
        LinkPhase::Leaving => 4,
    }
}

fn max_told(peer: Option<&OpenBody>) -> u32
    ensures { result ≡ max_told (option_map (λ b. b.now) peer.entry) }
{
    match peer {
        Some(open) => id_number(open.max_frame_size),
        None => 0,
    }
}

fn idle_told(peer: Option<&OpenBody>) -> u32
    ensures { result ≡ idle_told (option_map (λ b. b.now) peer.entry) }
{
    match peer {
        Some(open) => open.idle_time_out.unwrap_or(0),
        None => 0,
    }
}

impl LinkStatus {
    /// Returns how the link stands.
    pub fn of(link: &Link) -> LinkStatus
        ensures { IsLinkStatus link.now result }
    {
        let shown = link.status();
        LinkStatus {
            role: role_number(shown.role),
            phase: link_phase_number(shown.phase),
            count: shown.count,
            credit: shown.credit,
            peer_handle: id_number(link.peer_handle()),
            ready: shown.ready as u64,
            peer_max_message: link.longest_theirs(),
            max_message: link.longest_ours(),
            snd: link.snd_mode(),
            rcv: link.rcv_mode(),
            drain: shown.drain,
            mid: shown.mid,
        }
    }
}

impl ConnStatus {
    /// Returns how the connection stands.
    pub fn of(caller: &Caller) -> ConnStatus
        ensures { IsConnStatus caller.now result }
    {
        let logged = caller.conn.logged();
        let endpoint = logged.endpoint();
        let windows = endpoint.windows();
        ConnStatus {
            phase: phase_of(&caller.conn),
            steps_left: logged.steps_left(),
            next_in: id_number(windows.next_in),
            incoming: windows.incoming,
            next_out: windows.next_out,
            remote_in: windows.remote_in,
            next_delivery: windows.next_delivery,
            peer_max_frame: max_told(caller.conn.peer()),
            peer_idle_time_out: idle_told(caller.conn.peer()),
            units: logged.waiting_units() as u64,
            octets: logged.waiting_octets(),
            unwritten: caller.rest.len() as u64,
            sent_unsettled: endpoint.unsettled_len(Role::Sender) as u64,
            received_unsettled: endpoint.unsettled_len(Role::Receiver) as u64,
            begun: windows.next_in.is_some(),
        }
    }
}
