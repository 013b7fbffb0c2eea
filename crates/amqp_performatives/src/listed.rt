//! The fields of each composite type, in their order (part 2, 2.7 and 2.8.14; part 3, 3.4).
ghost use Rattle.std.specs.Prelude.{◌≡◌, ◌≤◌, ◌∷◌, [], length, MatchResult};
ghost use Rattle.amqp_types.specs.Datum.{count_of};
ghost use Rattle.amqp_performatives.specs.Composite.{type_of};
ghost use Rattle.amqp_performatives.specs.Part.{no_field, composite};
ghost use Rattle.amqp_performatives.specs.Bodies.{symbol, string, any, optional, error, ◌▸◌, open_fields, begin_fields, attach_fields, flow_fields, transfer_fields, disposition_fields, detach_fields, composite_of, fields_of, state};
ghost use Rattle.amqp_performatives.specs.Listed.{part_at, fields_at, is_absent, shown_fields};

use crate::bodies::{
    AttachBody, BeginBody, DetachBody, DispositionBody, FlowBody, OpenBody, TransferBody,
};
use crate::composite::Composite;
use crate::error::AmqpError;
use crate::field::{
    Field, any, boolean, failure, mapping, role, state, string, tag, ubyte, uint, ulong, ushort,
};
use crate::performative::Performative;
use crate::state::DeliveryState;
use amqp_types::Value;
use std::marker::Model;

/// As many fields as an attach has, which has most.
const MOST: usize = 14;

/// A composite type with its fields in their order, borrowed from its body. Contracts see it as these two.
#[derive(Drop)]
pub struct Listed<'a> {
    composite: Composite,
    fields: [Field<'a>; MOST],
    count: usize,
}

impl<'a> Model for Listed<'a> {
    ghost use Rattle.std.specs.Prelude.{List, ◌≤◌, take};
    ghost use Rattle.amqp_performatives.specs.declared.composite.Composite.{Composite};
    ghost use Rattle.amqp_performatives.specs.declared.field.Field.{Field};
    ghost use Rattle.std.specs.Coded.{codes};
    ghost use Rattle.amqp_types.specs.contracts.value.Value as value;

    ghost Value = { Composite × List Field };

    ghost coded = { Prim.hlevel (codes, value.the_row.coded) };

    ghost view = { λ l. (l.composite, take l.count l.fields) };

    ghost invariant = { λ l. l.count ≤ 14 };
}

impl<'a> Listed<'a> {
    fn new(composite: Composite, fields: &[Field<'a>]) -> Listed<'a>
        requires { length fields.now ≤ 14 }
        ensures composite { result.0 ≡ composite }
        ensures fields { result.1 ≡ fields.now }
    {
        let count = fields.len();
        let mut all = [Field::Absent; MOST];
        all[..count].copy_from_slice(fields);
        Listed {
            composite,
            fields: all,
            count,
        }
    }

    /// The type.
    pub fn composite(&self) -> Composite
        ensures { result ≡ self.now.0 }
    {
        self.composite
    }

    /// The fields, absent ones at the end too.
    pub fn fields(&self) -> &[Field<'a>]
        ensures { result.now ≡ self.now.1 }
    {
        &self.fields[..self.count]
    }
}

impl Performative {
    /// Its type with its fields.
    pub fn listed(&self) -> Listed<'_>
        ensures composite { result.0 ≡ composite_of self.now }
        ensures fields { fields_at result.1 ≡ fields_of self.now }
    {
        match self {
            Performative::Open(body) => Listed::new(Composite::Open, &open_fields(body.get())),
            Performative::Begin(body) => Listed::new(Composite::Begin, &begin_fields(body.get())),
            Performative::Attach(body) => {
                Listed::new(Composite::Attach, &attach_fields(body.get()))
            }
            Performative::Flow(body) => Listed::new(Composite::Flow, &flow_fields(body)),
            Performative::Transfer(body) => {
                Listed::new(Composite::Transfer, &transfer_fields(body))
            }
            Performative::Disposition(body) => {
                Listed::new(Composite::Disposition, &disposition_fields(body))
            }
            Performative::Detach(body) => Listed::new(Composite::Detach, &detach_fields(body)),
            Performative::End(body) => Listed::new(Composite::End, &[failure(&body.error)]),
            Performative::Close(body) => Listed::new(Composite::Close, &[failure(&body.error)]),
        }
    }
}

impl DeliveryState {
    /// Its type with its fields (part 3, 3.4), or the value that a state of another type is.
    pub fn listed(&self) -> Result<Listed<'_>, &Value>
        ensures { MatchResult result (λ l. state self.now ≡ composite (type_of l.0) (fields_at l.1)) (λ v. state self.now ≡ any v.now) }
    {
        match self {
            DeliveryState::Received {
                section_number,
                section_offset,
            } => {
                let fields = [Field::Uint(*section_number), Field::Ulong(*section_offset)];
                Ok(Listed::new(Composite::Received, &fields))
            }
            DeliveryState::Accepted => Ok(Listed::new(Composite::Accepted, &[])),
            DeliveryState::Rejected(failed) => {
                Ok(Listed::new(Composite::Rejected, &[failure(failed)]))
            }
            DeliveryState::Released => Ok(Listed::new(Composite::Released, &[])),
            DeliveryState::Modified {
                delivery_failed,
                undeliverable_here,
                message_annotations,
            } => {
                let fields = [
                    boolean(*delivery_failed),
                    boolean(*undeliverable_here),
                    any(message_annotations),
                ];
                Ok(Listed::new(Composite::Modified, &fields))
            }
            DeliveryState::Other(value) => Err(value.get()),
        }
    }
}

/// Those of an open (part 2, 2.7.1).
pub fn open_fields(body: &OpenBody) -> [Field<'_>; 10]
    ensures { fields_at result ≡ open_fields body.now }
{
    [
        Field::Str(body.container_id.as_str()),
        string(&body.hostname),
        uint(body.max_frame_size),
        ushort(body.channel_max),
        uint(body.idle_time_out),
        any(&body.outgoing_locales),
        any(&body.incoming_locales),
        any(&body.offered_capabilities),
        any(&body.desired_capabilities),
        any(&body.properties),
    ]
}

/// Those of a begin (part 2, 2.7.2).
pub fn begin_fields(body: &BeginBody) -> [Field<'_>; 8]
    ensures { fields_at result ≡ begin_fields body.now }
{
    [
        ushort(body.remote_channel),
        Field::Uint(body.next_outgoing_id),
        Field::Uint(body.incoming_window),
        Field::Uint(body.outgoing_window),
        uint(body.handle_max),
        any(&body.offered_capabilities),
        any(&body.desired_capabilities),
        any(&body.properties),
    ]
}

/// Those of an attach (part 2, 2.7.3).
pub fn attach_fields(body: &AttachBody) -> [Field<'_>; 14]
    ensures { fields_at result ≡ attach_fields body.now }
{
    [
        Field::Str(body.name.as_str()),
        Field::Uint(body.handle),
        role(body.role),
        ubyte(body.snd_settle_mode),
        ubyte(body.rcv_settle_mode),
        any(&body.source),
        any(&body.target),
        mapping(&body.unsettled),
        boolean(body.incomplete_unsettled),
        uint(body.initial_delivery_count),
        ulong(body.max_message_size),
        any(&body.offered_capabilities),
        any(&body.desired_capabilities),
        any(&body.properties),
    ]
}

/// Those of a flow (part 2, 2.7.4).
pub fn flow_fields(body: &FlowBody) -> [Field<'_>; 11]
    ensures { fields_at result ≡ flow_fields body.now }
{
    [
        uint(body.next_incoming_id),
        Field::Uint(body.incoming_window),
        Field::Uint(body.next_outgoing_id),
        Field::Uint(body.outgoing_window),
        uint(body.handle),
        uint(body.delivery_count),
        uint(body.link_credit),
        uint(body.available),
        boolean(body.drain),
        boolean(body.echo),
        any(&body.properties),
    ]
}

/// Those of a transfer (part 2, 2.7.5).
pub fn transfer_fields(body: &TransferBody) -> [Field<'_>; 11]
    ensures { fields_at result ≡ transfer_fields body.now }
{
    [
        Field::Uint(body.handle),
        uint(body.delivery_id),
        tag(&body.delivery_tag),
        uint(body.message_format),
        boolean(body.settled),
        boolean(body.more),
        ubyte(body.rcv_settle_mode),
        state(&body.state),
        boolean(body.resume),
        boolean(body.aborted),
        boolean(body.batchable),
    ]
}

/// Those of a disposition (part 2, 2.7.6).
pub fn disposition_fields(body: &DispositionBody) -> [Field<'_>; 6]
    ensures { fields_at result ≡ disposition_fields body.now }
{
    [
        role(body.role),
        Field::Uint(body.first),
        uint(body.last),
        boolean(body.settled),
        state(&body.state),
        boolean(body.batchable),
    ]
}

/// Those of a detach (part 2, 2.7.7).
pub fn detach_fields(body: &DetachBody) -> [Field<'_>; 3]
    ensures { fields_at result ≡ detach_fields body.now }
{
    [
        Field::Uint(body.handle),
        boolean(body.closed),
        failure(&body.error),
    ]
}

/// Those of an error (part 2, 2.8.14).
pub fn error_fields(failed: &AmqpError) -> [Field<'_>; 3]
    ensures { fields_at result ≡ symbol failed.now.condition ▸ optional string failed.now.description ▸ optional any failed.now.info ▸ no_field }
{
    [
        Field::Symbol(failed.condition.as_str()),
        string(&failed.description),
        any(&failed.info),
    ]
}

fn is_absent(field: &Field<'_>) -> bool
    ensures { result ≡ is_absent (part_at field.now) }
{
    match field {
        Field::Absent => true,
        _ => false,
    }
}

/// How many fields there are up to the last that is present, which is how many are written.
pub fn shown_count(fields: &[Field<'_>]) -> usize
    ensures count { result ≡ count_of (shown_fields fields.now) }
    ensures bound { result ≤ length fields.now }
{
    for i in (0..fields.len()).rev() {
        if !is_absent(&fields[i]) {
            return i + 1;
        }
    }
    0
}
