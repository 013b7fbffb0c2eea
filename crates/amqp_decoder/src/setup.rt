//! The bodies that set up connections, sessions and links (part 2, 2.7.1 to 2.7.3), read where they lie and then made owned.
ghost use Rattle.std.specs.Prelude.{◌≡◌, IfOk, option_map};
ghost use Rattle.amqp_performatives.specs.Bodies.{open_fields, begin_fields, attach_fields};
ghost use Rattle.amqp_performatives.specs.Fair.{is_fair_open, is_fair_begin, is_fair_attach};
ghost use Rattle.amqp_decoder.specs.Parts.{ReadsAll};
ghost use Rattle.amqp_decoder.specs.ReadPerformatives.{ReadsKind, open_type, begin_type, attach_type};
ghost use Rattle.amqp_decoder.specs.ReadSetup.{open_in, begin_in, attach_in};

use crate::borrowed::ValueRef;
use crate::fault::BodyFault;
use crate::fields::Cursor;
use crate::parts::{owned_map, owned_text, owned_value};
use amqp_performatives::{AttachBody, BeginBody, OpenBody, Performative, Role};
use amqp_types::{Boxed, Text};
use std::alloc::{AllocError, Global};

/// Open, with what wants memory still in octets.
#[derive(Clone, Copy)]
struct OpenRef<'a> {
    container_id: &'a str,
    hostname: Option<&'a str>,
    max_frame_size: Option<u32>,
    channel_max: Option<u16>,
    idle_time_out: Option<u32>,
    outgoing_locales: Option<ValueRef<'a>>,
    incoming_locales: Option<ValueRef<'a>>,
    offered_capabilities: Option<ValueRef<'a>>,
    desired_capabilities: Option<ValueRef<'a>>,
    properties: Option<ValueRef<'a>>,
}

/// The fields of open.
fn open_fields(fields: Cursor<'_>) -> Option<OpenRef<'_>>
    ensures { ReadsAll open_fields is_fair_open fields.entry (option_map open_in result) }
{
    let (container_id, fields) = fields.required_string()?;
    let (hostname, fields) = fields.string()?;
    let (max_frame_size, fields) = fields.uint()?;
    let (channel_max, fields) = fields.ushort()?;
    let (idle_time_out, fields) = fields.uint()?;
    let (outgoing_locales, fields) = fields.any()?;
    let (incoming_locales, fields) = fields.any()?;
    let (offered_capabilities, fields) = fields.any()?;
    let (desired_capabilities, fields) = fields.any()?;
    let (properties, fields) = fields.any()?;
    if !fields.is_at_end() {
        return None;
    }
    Some(OpenRef {
        container_id,
        hostname,
        max_frame_size,
        channel_max,
        idle_time_out,
        outgoing_locales,
        incoming_locales,
        offered_capabilities,
        desired_capabilities,
        properties,
    })
}

impl<'a> OpenRef<'a> {
    /// The body in memory of its own, behind a pointer.
    fn owned(self, alloc: Global) -> Result<Boxed<OpenBody>, AllocError>
        ensures part { IfOk result (λ b. open_fields b ≡ open_fields (open_in self.entry)) }
        ensures fair { IfOk result (λ b. is_fair_open b ≡ is_fair_open (open_in self.entry)) }
    {
        let container_id = Text::new(alloc, self.container_id)?;
        let hostname = owned_text(alloc, self.hostname)?;
        let outgoing_locales = owned_value(alloc, self.outgoing_locales)?;
        let incoming_locales = owned_value(alloc, self.incoming_locales)?;
        let offered_capabilities = owned_value(alloc, self.offered_capabilities)?;
        let desired_capabilities = owned_value(alloc, self.desired_capabilities)?;
        let properties = owned_value(alloc, self.properties)?;
        let body = OpenBody {
            container_id,
            hostname,
            max_frame_size: self.max_frame_size,
            channel_max: self.channel_max,
            idle_time_out: self.idle_time_out,
            outgoing_locales,
            incoming_locales,
            offered_capabilities,
            desired_capabilities,
            properties,
        };
        let boxed = Boxed::new(alloc, body)?;
        Ok(boxed)
    }
}

/// Open.
pub(crate) fn read_open(alloc: Global, fields: Cursor<'_>) -> Result<Performative, BodyFault>
    ensures { ReadsKind open_type fields.entry result }
{
    match open_fields(fields) {
        Some(borrowed) => match borrowed.owned(alloc) {
            Ok(body) => Ok(Performative::Open(body)),
            Err(_) => Err(BodyFault::NoMemory),
        },
        None => Err(BodyFault::NoBody),
    }
}

/// Begin, with what wants memory still in octets.
#[derive(Clone, Copy)]
struct BeginRef<'a> {
    remote_channel: Option<u16>,
    next_outgoing_id: u32,
    incoming_window: u32,
    outgoing_window: u32,
    handle_max: Option<u32>,
    offered_capabilities: Option<ValueRef<'a>>,
    desired_capabilities: Option<ValueRef<'a>>,
    properties: Option<ValueRef<'a>>,
}

/// The fields of begin.
fn begin_fields(fields: Cursor<'_>) -> Option<BeginRef<'_>>
    ensures { ReadsAll begin_fields is_fair_begin fields.entry (option_map begin_in result) }
{
    let (remote_channel, fields) = fields.ushort()?;
    let (next_outgoing_id, fields) = fields.required_uint()?;
    let (incoming_window, fields) = fields.required_uint()?;
    let (outgoing_window, fields) = fields.required_uint()?;
    let (handle_max, fields) = fields.uint()?;
    let (offered_capabilities, fields) = fields.any()?;
    let (desired_capabilities, fields) = fields.any()?;
    let (properties, fields) = fields.any()?;
    if !fields.is_at_end() {
        return None;
    }
    Some(BeginRef {
        remote_channel,
        next_outgoing_id,
        incoming_window,
        outgoing_window,
        handle_max,
        offered_capabilities,
        desired_capabilities,
        properties,
    })
}

impl<'a> BeginRef<'a> {
    /// The body in memory of its own, behind a pointer.
    fn owned(self, alloc: Global) -> Result<Boxed<BeginBody>, AllocError>
        ensures part { IfOk result (λ b. begin_fields b ≡ begin_fields (begin_in self.entry)) }
        ensures fair { IfOk result (λ b. is_fair_begin b ≡ is_fair_begin (begin_in self.entry)) }
    {
        let offered_capabilities = owned_value(alloc, self.offered_capabilities)?;
        let desired_capabilities = owned_value(alloc, self.desired_capabilities)?;
        let properties = owned_value(alloc, self.properties)?;
        let body = BeginBody {
            remote_channel: self.remote_channel,
            next_outgoing_id: self.next_outgoing_id,
            incoming_window: self.incoming_window,
            outgoing_window: self.outgoing_window,
            handle_max: self.handle_max,
            offered_capabilities,
            desired_capabilities,
            properties,
        };
        let boxed = Boxed::new(alloc, body)?;
        Ok(boxed)
    }
}

/// Begin.
pub(crate) fn read_begin(alloc: Global, fields: Cursor<'_>) -> Result<Performative, BodyFault>
    ensures { ReadsKind begin_type fields.entry result }
{
    match begin_fields(fields) {
        Some(borrowed) => match borrowed.owned(alloc) {
            Ok(body) => Ok(Performative::Begin(body)),
            Err(_) => Err(BodyFault::NoMemory),
        },
        None => Err(BodyFault::NoBody),
    }
}

/// Attach, with what wants memory still in octets.
#[derive(Clone, Copy)]
struct AttachRef<'a> {
    name: &'a str,
    handle: u32,
    role: Role,
    snd_settle_mode: Option<u8>,
    rcv_settle_mode: Option<u8>,
    source: Option<ValueRef<'a>>,
    target: Option<ValueRef<'a>>,
    unsettled: Option<ValueRef<'a>>,
    incomplete_unsettled: Option<bool>,
    initial_delivery_count: Option<u32>,
    max_message_size: Option<u64>,
    offered_capabilities: Option<ValueRef<'a>>,
    desired_capabilities: Option<ValueRef<'a>>,
    properties: Option<ValueRef<'a>>,
}

/// The fields of attach.
fn attach_fields(fields: Cursor<'_>) -> Option<AttachRef<'_>>
    ensures { ReadsAll attach_fields is_fair_attach fields.entry (option_map attach_in result) }
{
    let (name, fields) = fields.required_string()?;
    let (handle, fields) = fields.required_uint()?;
    let (role, fields) = fields.role()?;
    let (snd_settle_mode, fields) = fields.mode(2)?;
    let (rcv_settle_mode, fields) = fields.mode(1)?;
    let (source, fields) = fields.any()?;
    let (target, fields) = fields.any()?;
    let (unsettled, fields) = fields.map()?;
    let (incomplete_unsettled, fields) = fields.boolean()?;
    let (initial_delivery_count, fields) = fields.uint()?;
    let (max_message_size, fields) = fields.ulong()?;
    let (offered_capabilities, fields) = fields.any()?;
    let (desired_capabilities, fields) = fields.any()?;
    let (properties, fields) = fields.any()?;
    if !fields.is_at_end() {
        return None;
    }
    Some(AttachRef {
        name,
        handle,
        role,
        snd_settle_mode,
        rcv_settle_mode,
        source,
        target,
        unsettled,
        incomplete_unsettled,
        initial_delivery_count,
        max_message_size,
        offered_capabilities,
        desired_capabilities,
        properties,
    })
}

impl<'a> AttachRef<'a> {
    /// The body in memory of its own, behind a pointer.
    fn owned(self, alloc: Global) -> Result<Boxed<AttachBody>, AllocError>
        ensures part { IfOk result (λ b. attach_fields b ≡ attach_fields (attach_in self.entry)) }
        ensures fair { IfOk result (λ b. is_fair_attach b ≡ is_fair_attach (attach_in self.entry)) }
    {
        let name = Text::new(alloc, self.name)?;
        let source = owned_value(alloc, self.source)?;
        let target = owned_value(alloc, self.target)?;
        let unsettled = owned_map(alloc, self.unsettled)?;
        let offered_capabilities = owned_value(alloc, self.offered_capabilities)?;
        let desired_capabilities = owned_value(alloc, self.desired_capabilities)?;
        let properties = owned_value(alloc, self.properties)?;
        let body = AttachBody {
            name,
            handle: self.handle,
            role: self.role,
            snd_settle_mode: self.snd_settle_mode,
            rcv_settle_mode: self.rcv_settle_mode,
            source,
            target,
            unsettled,
            incomplete_unsettled: self.incomplete_unsettled,
            initial_delivery_count: self.initial_delivery_count,
            max_message_size: self.max_message_size,
            offered_capabilities,
            desired_capabilities,
            properties,
        };
        let boxed = Boxed::new(alloc, body)?;
        Ok(boxed)
    }
}

/// Attach.
pub(crate) fn read_attach(alloc: Global, fields: Cursor<'_>) -> Result<Performative, BodyFault>
    ensures { ReadsKind attach_type fields.entry result }
{
    match attach_fields(fields) {
        Some(borrowed) => match borrowed.owned(alloc) {
            Ok(body) => Ok(Performative::Attach(body)),
            Err(_) => Err(BodyFault::NoMemory),
        },
        None => Err(BodyFault::NoBody),
    }
}
