//! The bodies of the nine performatives (part 2, 2.7): their fields in order, an option where a field is not mandatory; no default is filled in.
//! All but an open's are dropped by hand, so that a crate that owns one does not prove its parts' drops again.
ghost use Rattle.std.specs.Prelude.{◌≡◌};
ghost use Rattle.amqp_performatives.specs.Bare.{bare_open, bare_begin, bare_attach, bare_flow, bare_transfer, bare_disposition, bare_detach, bare_end, bare_close};

use crate::copying::{copy_error, copy_pairs, copy_state, copy_text, copy_value};
use crate::error::AmqpError;
use crate::state::DeliveryState;
use amqp_types::{Boxed, Items, Tag, Text, Value};
use std::alloc::AllocError;

/// An end of a link (part 2, 2.8.1): true on the wire where it receives.
#[derive(Clone, Copy, Debug, PartialEq, Eq)]
pub enum Role {
    Sender,
    Receiver,
}

/// Open (part 2, 2.7.1).
#[derive(Debug, PartialEq, Eq, Drop)]
pub struct OpenBody {
    pub container_id: Text,
    pub hostname: Option<Text>,
    /// In octets; 4294967295 where absent.
    pub max_frame_size: Option<u32>,
    /// 65535 where absent.
    pub channel_max: Option<u16>,
    /// In milliseconds.
    pub idle_time_out: Option<u32>,
    pub outgoing_locales: Option<Boxed<Value>>,
    pub incoming_locales: Option<Boxed<Value>>,
    pub offered_capabilities: Option<Boxed<Value>>,
    pub desired_capabilities: Option<Boxed<Value>>,
    pub properties: Option<Boxed<Value>>,
}

impl OpenBody {
    /// An open of the container, without options.
    pub fn new(container_id: Text) -> OpenBody
        ensures { result ≡ bare_open container_id }
    {
        OpenBody {
            container_id,
            hostname: None,
            max_frame_size: None,
            channel_max: None,
            idle_time_out: None,
            outgoing_locales: None,
            incoming_locales: None,
            offered_capabilities: None,
            desired_capabilities: None,
            properties: None,
        }
    }
}

impl Clone for OpenBody {
    ghost is_clone = { λ a b. b ≡ a };

    fn clone(&self) -> Result<OpenBody, AllocError> {
        let container_id = self.container_id.clone()?;
        let hostname = copy_text(&self.hostname)?;
        let outgoing_locales = copy_value(&self.outgoing_locales)?;
        let incoming_locales = copy_value(&self.incoming_locales)?;
        let offered_capabilities = copy_value(&self.offered_capabilities)?;
        let desired_capabilities = copy_value(&self.desired_capabilities)?;
        let properties = copy_value(&self.properties)?;
        Ok(OpenBody {
            container_id,
            hostname,
            max_frame_size: self.max_frame_size,
            channel_max: self.channel_max,
            idle_time_out: self.idle_time_out,
            outgoing_locales,
            incoming_locales,
            offered_capabilities,
            desired_capabilities,
            properties,
        })
    }
}

/// Begin (part 2, 2.7.2).
#[derive(Debug, PartialEq, Eq)]
pub struct BeginBody {
    pub remote_channel: Option<u16>,
    pub next_outgoing_id: u32,
    /// In transfers.
    pub incoming_window: u32,
    /// In transfers.
    pub outgoing_window: u32,
    /// 4294967295 where absent.
    pub handle_max: Option<u32>,
    pub offered_capabilities: Option<Boxed<Value>>,
    pub desired_capabilities: Option<Boxed<Value>>,
    pub properties: Option<Boxed<Value>>,
}

impl Drop for BeginBody {
    fn drop(self) {
        let BeginBody {
            remote_channel: _,
            next_outgoing_id: _,
            incoming_window: _,
            outgoing_window: _,
            handle_max: _,
            offered_capabilities,
            desired_capabilities,
            properties,
        } = self;
        drop(offered_capabilities);
        drop(desired_capabilities);
        drop(properties);
    }
}

impl BeginBody {
    /// A begin of a session that we open: no remote channel, and no options.
    pub fn new(next_outgoing_id: u32, incoming_window: u32, outgoing_window: u32) -> BeginBody
        ensures { result ≡ bare_begin next_outgoing_id incoming_window outgoing_window }
    {
        BeginBody {
            remote_channel: None,
            next_outgoing_id,
            incoming_window,
            outgoing_window,
            handle_max: None,
            offered_capabilities: None,
            desired_capabilities: None,
            properties: None,
        }
    }
}

impl Clone for BeginBody {
    ghost is_clone = { λ a b. b ≡ a };

    fn clone(&self) -> Result<BeginBody, AllocError> {
        let offered_capabilities = copy_value(&self.offered_capabilities)?;
        let desired_capabilities = copy_value(&self.desired_capabilities)?;
        let properties = copy_value(&self.properties)?;
        Ok(BeginBody {
            remote_channel: self.remote_channel,
            next_outgoing_id: self.next_outgoing_id,
            incoming_window: self.incoming_window,
            outgoing_window: self.outgoing_window,
            handle_max: self.handle_max,
            offered_capabilities,
            desired_capabilities,
            properties,
        })
    }
}

/// Attach (part 2, 2.7.3).
#[derive(Debug, PartialEq, Eq)]
pub struct AttachBody {
    pub name: Text,
    pub handle: u32,
    pub role: Role,
    /// 0 unsettled, 1 settled, 2 mixed (part 2, 2.8.2); 2 where absent.
    pub snd_settle_mode: Option<u8>,
    /// 0 first, 1 second (part 2, 2.8.3); 0 where absent.
    pub rcv_settle_mode: Option<u8>,
    pub source: Option<Boxed<Value>>,
    pub target: Option<Boxed<Value>>,
    /// Delivery tags with their states.
    pub unsettled: Option<Items<(Value, Value)>>,
    /// False where absent.
    pub incomplete_unsettled: Option<bool>,
    /// A sender's first delivery-count.
    pub initial_delivery_count: Option<u32>,
    /// In octets; no limit where it is 0 or absent.
    pub max_message_size: Option<u64>,
    pub offered_capabilities: Option<Boxed<Value>>,
    pub desired_capabilities: Option<Boxed<Value>>,
    pub properties: Option<Boxed<Value>>,
}

impl Drop for AttachBody {
    fn drop(self) {
        let AttachBody {
            name,
            handle: _,
            role: _,
            snd_settle_mode: _,
            rcv_settle_mode: _,
            source,
            target,
            unsettled,
            incomplete_unsettled: _,
            initial_delivery_count: _,
            max_message_size: _,
            offered_capabilities,
            desired_capabilities,
            properties,
        } = self;
        drop(name);
        drop(source);
        drop(target);
        drop(unsettled);
        drop(offered_capabilities);
        drop(desired_capabilities);
        drop(properties);
    }
}

impl AttachBody {
    /// An attach without options: neither terminus, and for a sender no initial delivery-count.
    pub fn new(name: Text, handle: u32, role: Role) -> AttachBody
        ensures { result ≡ bare_attach name handle role }
    {
        AttachBody {
            name,
            handle,
            role,
            snd_settle_mode: None,
            rcv_settle_mode: None,
            source: None,
            target: None,
            unsettled: None,
            incomplete_unsettled: None,
            initial_delivery_count: None,
            max_message_size: None,
            offered_capabilities: None,
            desired_capabilities: None,
            properties: None,
        }
    }
}

impl Clone for AttachBody {
    ghost is_clone = { λ a b. b ≡ a };

    fn clone(&self) -> Result<AttachBody, AllocError> {
        let name = self.name.clone()?;
        let source = copy_value(&self.source)?;
        let target = copy_value(&self.target)?;
        let unsettled = copy_pairs(&self.unsettled)?;
        let offered_capabilities = copy_value(&self.offered_capabilities)?;
        let desired_capabilities = copy_value(&self.desired_capabilities)?;
        let properties = copy_value(&self.properties)?;
        Ok(AttachBody {
            name,
            handle: self.handle,
            role: self.role,
            snd_settle_mode: self.snd_settle_mode,
            rcv_settle_mode: self.rcv_settle_mode,
            source,
            target,
            unsettled,
            incomplete_unsettled: self.incomplete_unsettled,
            initial_delivery_count: self.initial_delivery_count,
            max_message_size: self.max_message_size,
            offered_capabilities,
            desired_capabilities,
            properties,
        })
    }
}

/// Flow (part 2, 2.7.4). Without a handle it speaks of the session alone.
#[derive(Debug, PartialEq, Eq)]
pub struct FlowBody {
    pub next_incoming_id: Option<u32>,
    /// In transfers.
    pub incoming_window: u32,
    pub next_outgoing_id: u32,
    /// In transfers.
    pub outgoing_window: u32,
    pub handle: Option<u32>,
    pub delivery_count: Option<u32>,
    /// In deliveries.
    pub link_credit: Option<u32>,
    /// In messages.
    pub available: Option<u32>,
    /// False where absent.
    pub drain: Option<bool>,
    /// False where absent.
    pub echo: Option<bool>,
    pub properties: Option<Boxed<Value>>,
}

impl Drop for FlowBody {
    // It would be copied whole for a call.
    #[inline(always)]
    fn drop(self) {
        let FlowBody {
            next_incoming_id: _,
            incoming_window: _,
            next_outgoing_id: _,
            outgoing_window: _,
            handle: _,
            delivery_count: _,
            link_credit: _,
            available: _,
            drain: _,
            echo: _,
            properties,
        } = self;
        drop(properties);
    }
}

impl FlowBody {
    /// A flow of the session alone, which awaits no transfer by its id.
    pub fn new(incoming_window: u32, next_outgoing_id: u32, outgoing_window: u32) -> FlowBody
        ensures { result ≡ bare_flow incoming_window next_outgoing_id outgoing_window }
    {
        FlowBody {
            next_incoming_id: None,
            incoming_window,
            next_outgoing_id,
            outgoing_window,
            handle: None,
            delivery_count: None,
            link_credit: None,
            available: None,
            drain: None,
            echo: None,
            properties: None,
        }
    }
}

impl Clone for FlowBody {
    ghost is_clone = { λ a b. b ≡ a };

    fn clone(&self) -> Result<FlowBody, AllocError> {
        let properties = copy_value(&self.properties)?;
        Ok(FlowBody {
            next_incoming_id: self.next_incoming_id,
            incoming_window: self.incoming_window,
            next_outgoing_id: self.next_outgoing_id,
            outgoing_window: self.outgoing_window,
            handle: self.handle,
            delivery_count: self.delivery_count,
            link_credit: self.link_credit,
            available: self.available,
            drain: self.drain,
            echo: self.echo,
            properties,
        })
    }
}

/// Transfer (part 2, 2.7.5); its payload is the frame's.
#[derive(Debug, PartialEq, Eq)]
pub struct TransferBody {
    pub handle: u32,
    pub delivery_id: Option<u32>,
    pub delivery_tag: Option<Tag>,
    pub message_format: Option<u32>,
    pub settled: Option<bool>,
    /// False where absent.
    pub more: Option<bool>,
    /// 0 first, 1 second.
    pub rcv_settle_mode: Option<u8>,
    pub state: Option<DeliveryState>,
    /// False where absent.
    pub resume: Option<bool>,
    /// False where absent.
    pub aborted: Option<bool>,
    /// False where absent.
    pub batchable: Option<bool>,
}

impl Drop for TransferBody {
    // It would be copied whole for a call.
    #[inline(always)]
    fn drop(self) {
        let TransferBody {
            handle: _,
            delivery_id: _,
            delivery_tag: _,
            message_format: _,
            settled: _,
            more: _,
            rcv_settle_mode: _,
            state,
            resume: _,
            aborted: _,
            batchable: _,
        } = self;
        drop(state);
    }
}

impl TransferBody {
    /// A transfer on the link without options.
    pub fn new(handle: u32) -> TransferBody
        ensures { result ≡ bare_transfer handle }
    {
        TransferBody {
            handle,
            delivery_id: None,
            delivery_tag: None,
            message_format: None,
            settled: None,
            more: None,
            rcv_settle_mode: None,
            state: None,
            resume: None,
            aborted: None,
            batchable: None,
        }
    }
}

impl Clone for TransferBody {
    ghost is_clone = { λ a b. b ≡ a };

    fn clone(&self) -> Result<TransferBody, AllocError> {
        let state = copy_state(&self.state)?;
        Ok(TransferBody {
            handle: self.handle,
            delivery_id: self.delivery_id,
            delivery_tag: self.delivery_tag,
            message_format: self.message_format,
            settled: self.settled,
            more: self.more,
            rcv_settle_mode: self.rcv_settle_mode,
            state,
            resume: self.resume,
            aborted: self.aborted,
            batchable: self.batchable,
        })
    }
}

/// Disposition (part 2, 2.7.6), of the deliveries from `first` to `last`; of `first` alone where `last` is absent.
#[derive(Debug, PartialEq, Eq)]
pub struct DispositionBody {
    pub role: Role,
    pub first: u32,
    pub last: Option<u32>,
    /// False where absent.
    pub settled: Option<bool>,
    pub state: Option<DeliveryState>,
    /// False where absent.
    pub batchable: Option<bool>,
}

impl Drop for DispositionBody {
    // It would be copied whole for a call.
    #[inline(always)]
    fn drop(self) {
        let DispositionBody {
            role: _,
            first: _,
            last: _,
            settled: _,
            state,
            batchable: _,
        } = self;
        drop(state);
    }
}

impl DispositionBody {
    /// A disposition of one delivery, without a state.
    pub fn new(role: Role, first: u32) -> DispositionBody
        ensures { result ≡ bare_disposition role first }
    {
        DispositionBody {
            role,
            first,
            last: None,
            settled: None,
            state: None,
            batchable: None,
        }
    }
}

impl Clone for DispositionBody {
    ghost is_clone = { λ a b. b ≡ a };

    fn clone(&self) -> Result<DispositionBody, AllocError> {
        let state = copy_state(&self.state)?;
        Ok(DispositionBody {
            role: self.role,
            first: self.first,
            last: self.last,
            settled: self.settled,
            state,
            batchable: self.batchable,
        })
    }
}

/// Detach (part 2, 2.7.7).
#[derive(Debug, PartialEq, Eq)]
pub struct DetachBody {
    pub handle: u32,
    /// False where absent.
    pub closed: Option<bool>,
    pub error: Option<Boxed<AmqpError>>,
}

impl Drop for DetachBody {
    fn drop(self) {
        let DetachBody {
            handle: _,
            closed: _,
            error,
        } = self;
        drop(error);
    }
}

impl DetachBody {
    /// A detach that does not close the link, without an error.
    pub fn new(handle: u32) -> DetachBody
        ensures { result ≡ bare_detach handle }
    {
        DetachBody {
            handle,
            closed: None,
            error: None,
        }
    }
}

impl Clone for DetachBody {
    ghost is_clone = { λ a b. b ≡ a };

    fn clone(&self) -> Result<DetachBody, AllocError> {
        let error = copy_error(&self.error)?;
        Ok(DetachBody {
            handle: self.handle,
            closed: self.closed,
            error,
        })
    }
}

/// End (part 2, 2.7.8).
#[derive(Debug, PartialEq, Eq)]
pub struct EndBody {
    pub error: Option<Boxed<AmqpError>>,
}

impl Drop for EndBody {
    fn drop(self) {
        let EndBody { error } = self;
        drop(error);
    }
}

impl EndBody {
    /// An end without an error.
    pub fn new() -> EndBody
        ensures { result ≡ bare_end }
    {
        EndBody { error: None }
    }
}

impl Clone for EndBody {
    ghost is_clone = { λ a b. b ≡ a };

    fn clone(&self) -> Result<EndBody, AllocError> {
        let error = copy_error(&self.error)?;
        Ok(EndBody { error })
    }
}

/// Close (part 2, 2.7.9).
#[derive(Debug, PartialEq, Eq)]
pub struct CloseBody {
    pub error: Option<Boxed<AmqpError>>,
}

impl Drop for CloseBody {
    fn drop(self) {
        let CloseBody { error } = self;
        drop(error);
    }
}

impl CloseBody {
    /// A close without an error.
    pub fn new() -> CloseBody
        ensures { result ≡ bare_close }
    {
        CloseBody { error: None }
    }
}

impl Clone for CloseBody {
    ghost is_clone = { λ a b. b ≡ a };

    fn clone(&self) -> Result<CloseBody, AllocError> {
        let error = copy_error(&self.error)?;
        Ok(CloseBody { error })
    }
}
