//! The standard's names of composite types and of their fields, in order (part 2, 2.7 and 2.8.14; part 3, 3.4 and 3.5).
ghost use Rattle.std.specs.Prelude.{◌≡◌, ℕ, length, option_map, IfSome};
ghost use Rattle.amqp_types.specs.declared.value.Value.TheViews.{out-Value};
ghost use Rattle.amqp_performatives.specs.declared.performative.Performative.{Performative};
ghost use Rattle.amqp_performatives.specs.declared.composite.Composite.{Composite};
ghost use Rattle.amqp_performatives.specs.Composite.{type_of};
ghost use Rattle.amqp_trace.specs.Names.{type_name, field_names, texts, type_data, composite_type, source_type, target_type, is_descriptor, terminus_type, described_type, IsNamed};

use amqp_performatives::Composite;
use amqp_types::Value;

const OPEN: [&str; 10] = [
    "container-id",
    "hostname",
    "max-frame-size",
    "channel-max",
    "idle-time-out",
    "outgoing-locales",
    "incoming-locales",
    "offered-capabilities",
    "desired-capabilities",
    "properties",
];

const BEGIN: [&str; 8] = [
    "remote-channel",
    "next-outgoing-id",
    "incoming-window",
    "outgoing-window",
    "handle-max",
    "offered-capabilities",
    "desired-capabilities",
    "properties",
];

const ATTACH: [&str; 14] = [
    "name",
    "handle",
    "role",
    "snd-settle-mode",
    "rcv-settle-mode",
    "source",
    "target",
    "unsettled",
    "incomplete-unsettled",
    "initial-delivery-count",
    "max-message-size",
    "offered-capabilities",
    "desired-capabilities",
    "properties",
];

const FLOW: [&str; 11] = [
    "next-incoming-id",
    "incoming-window",
    "next-outgoing-id",
    "outgoing-window",
    "handle",
    "delivery-count",
    "link-credit",
    "available",
    "drain",
    "echo",
    "properties",
];

const TRANSFER: [&str; 11] = [
    "handle",
    "delivery-id",
    "delivery-tag",
    "message-format",
    "settled",
    "more",
    "rcv-settle-mode",
    "state",
    "resume",
    "aborted",
    "batchable",
];

const DISPOSITION: [&str; 6] = ["role", "first", "last", "settled", "state", "batchable"];

const DETACH: [&str; 3] = ["handle", "closed", "error"];

/// Of an end, a close and a rejected state.
const ERROR_ALONE: [&str; 1] = ["error"];

const ERROR: [&str; 3] = ["condition", "description", "info"];

const RECEIVED: [&str; 2] = ["section-number", "section-offset"];

const MODIFIED: [&str; 3] = [
    "delivery-failed",
    "undeliverable-here",
    "message-annotations",
];

const SOURCE: [&str; 11] = [
    "address",
    "durable",
    "expiry-policy",
    "timeout",
    "dynamic",
    "dynamic-node-properties",
    "distribution-mode",
    "filter",
    "default-outcome",
    "outcomes",
    "capabilities",
];

const TARGET: [&str; 7] = [
    "address",
    "durable",
    "expiry-policy",
    "timeout",
    "dynamic",
    "dynamic-node-properties",
    "capabilities",
];

/// What the type is called.
pub fn type_name(kind: Composite) -> &'static str
    ensures { result.now ≡ type_name kind }
{
    match kind {
        Composite::Open => "open",
        Composite::Begin => "begin",
        Composite::Attach => "attach",
        Composite::Flow => "flow",
        Composite::Transfer => "transfer",
        Composite::Disposition => "disposition",
        Composite::Detach => "detach",
        Composite::End => "end",
        Composite::Close => "close",
        Composite::Error => "error",
        Composite::Received => "received",
        Composite::Accepted => "accepted",
        Composite::Rejected => "rejected",
        Composite::Released => "released",
        Composite::Modified => "modified",
    }
}

/// What its fields are called.
pub fn field_names(kind: Composite) -> &'static [&'static str]
    ensures { texts result.now ≡ field_names kind }
{
    match kind {
        Composite::Open => &OPEN,
        Composite::Begin => &BEGIN,
        Composite::Attach => &ATTACH,
        Composite::Flow => &FLOW,
        Composite::Transfer => &TRANSFER,
        Composite::Disposition => &DISPOSITION,
        Composite::Detach => &DETACH,
        Composite::End => &ERROR_ALONE,
        Composite::Close => &ERROR_ALONE,
        Composite::Error => &ERROR,
        Composite::Received => &RECEIVED,
        Composite::Accepted => &[],
        Composite::Rejected => &ERROR_ALONE,
        Composite::Released => &[],
        Composite::Modified => &MODIFIED,
    }
}

/// A type that values are described by.
#[derive(Clone, Copy)]
pub(crate) struct Named {
    pub(crate) number: u8,
    pub(crate) name: &'static str,
    pub(crate) fields: &'static [&'static str],
}

/// The type that the descriptor is of, if it is a delivery state, an error, a source or a target.
pub(crate) fn find_named(descriptor: &Value) -> Option<Named>
    ensures printable { IfSome result IsNamed }
    ensures data { option_map type_data result ≡ described_type (out-Value descriptor.now) }
{
    if is_of(descriptor, Composite::Error) {
        return Some(named_as(Composite::Error));
    }
    if is_of(descriptor, Composite::Received) {
        return Some(named_as(Composite::Received));
    }
    if is_of(descriptor, Composite::Accepted) {
        return Some(named_as(Composite::Accepted));
    }
    if is_of(descriptor, Composite::Rejected) {
        return Some(named_as(Composite::Rejected));
    }
    if is_of(descriptor, Composite::Released) {
        return Some(named_as(Composite::Released));
    }
    if is_of(descriptor, Composite::Modified) {
        return Some(named_as(Composite::Modified));
    }
    find_terminus(descriptor)
}

fn find_terminus(descriptor: &Value) -> Option<Named>
    ensures printable { IfSome result IsNamed }
    ensures data { option_map type_data result ≡ terminus_type (out-Value descriptor.now) }
{
    if is_descriptor(descriptor, 0x28, "amqp:source:list") {
        return Some(source());
    }
    if is_descriptor(descriptor, 0x29, "amqp:target:list") {
        return Some(target());
    }
    None
}

/// Whether the value is the descriptor of this type.
fn is_of(descriptor: &Value, kind: Composite) -> bool
    ensures { result ≡ is_descriptor (type_of kind) (out-Value descriptor.now) }
{
    is_descriptor(descriptor, kind.number(), kind.name())
}

/// Whether the value is this number or this symbol.
fn is_descriptor(descriptor: &Value, number: u8, name: &str) -> bool
    ensures { result ≡ is_descriptor (number, name.now) (out-Value descriptor.now) }
{
    match descriptor {
        Value::Ulong(found) => *found == u64::from(number),
        Value::Symbol(found) => found.as_str() == name,
        _ => false,
    }
}

#[tactic(auto, using(crate::proofs::Tables::type_printable, crate::proofs::Tables::fields_printable))]
fn named_as(kind: Composite) -> Named
    ensures printable { IsNamed result }
    ensures data { type_data result ≡ composite_type kind }
{
    Named {
        number: kind.number(),
        name: type_name(kind),
        fields: field_names(kind),
    }
}

/// A source (part 3, 3.5.3).
fn source() -> Named
    ensures printable { IsNamed result }
    ensures data { type_data result ≡ source_type }
{
    Named {
        number: 0x28,
        name: "source",
        fields: &SOURCE,
    }
}

/// A target (part 3, 3.5.4).
fn target() -> Named
    ensures printable { IsNamed result }
    ensures data { type_data result ≡ target_type }
{
    Named {
        number: 0x29,
        name: "target",
        fields: &TARGET,
    }
}
