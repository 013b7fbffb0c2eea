//! The ends of a link, as a peer's attach has them, and as ours answers (part 3, 3.5.3 and 3.5.4).
ghost use Rattle.std.specs.Prelude.{◌≡◌, None};

use crate::answer::Terminus;
use amqp_messages::{Source, Target};
use amqp_types::{Boxed, Text, Value};
use std::alloc::{AllocError, Global};

/// The descriptor of a coordinator (part 4, 4.5.1).
const COORDINATOR: u64 = 0x30;

/// Returns what a source is.
pub fn source_kind(value: &Option<Boxed<Value>>) -> Terminus {
    let Some(value) = value else {
        return Terminus::Absent;
    };
    match Source::read(value.get()) {
        Some(source) => node(source.address, source.dynamic),
        None => other_kind(value.get()),
    }
}

/// Returns what a target is.
pub fn target_kind(value: &Option<Boxed<Value>>) -> Terminus {
    let Some(value) = value else {
        return Terminus::Absent;
    };
    match Target::read(value.get()) {
        Some(target) => node(target.address, target.dynamic),
        None => other_kind(value.get()),
    }
}

fn node(address: Option<&Value>, dynamic: Option<bool>) -> Terminus {
    Terminus::Node {
        has_address: matches!(address, Some(Value::Str(_))),
        is_dynamic: dynamic.unwrap_or(false),
    }
}

fn other_kind(value: &Value) -> Terminus {
    let Value::Described(descriptor, _) = value else {
        return Terminus::Unknown;
    };
    match descriptor.get() {
        Value::Ulong(COORDINATOR) => Terminus::Coordinator,
        Value::Symbol(name) if name.as_str() == "amqp:coordinator:list" => Terminus::Coordinator,
        _ => Terminus::Unknown,
    }
}

/// Returns the address of a source.
pub fn source_address(value: &Option<Boxed<Value>>) -> Option<&Text> {
    let source = Source::read(value.as_ref()?.get())?;
    text_of(source.address)
}

/// Returns the address of a target.
pub fn target_address(value: &Option<Boxed<Value>>) -> Option<&Text> {
    let target = Target::read(value.as_ref()?.get())?;
    text_of(target.address)
}

fn text_of(address: Option<&Value>) -> Option<&Text> {
    match address {
        Some(Value::Str(address)) => Some(address),
        _ => None,
    }
}

/// Returns whether a source asks for copies of the messages, which stay in their queue (part 3, 3.5.7).
pub fn is_copied(value: &Option<Boxed<Value>>) -> bool {
    let Some(value) = value else {
        return false;
    };
    match Source::read(value.get()) {
        Some(source) => source.distribution_mode == Some("copy"),
        None => false,
    }
}

/// Returns the source of our answer, which has what is done: the address, whether it was made up, and whether messages are copied. What is not done
/// is left out: filters,
/// capabilities, outcomes, durability and every other distribution mode.
fn source_done(address: &Value, is_dynamic: bool, is_copied: bool) -> Source<'_>
    ensures filter { result.filter ≡ None }
    ensures capabilities { result.capabilities ≡ None }
    ensures outcomes { result.outcomes ≡ None }
    ensures durable { result.durable ≡ None }
    ensures expiry { result.expiry_policy ≡ None }
{
    Source {
        address: Some(address),
        durable: None,
        expiry_policy: None,
        timeout: None,
        dynamic: flag(is_dynamic),
        dynamic_node_properties: None,
        distribution_mode: mode(is_copied),
        filter: None,
        default_outcome: None,
        outcomes: None,
        capabilities: None,
    }
}

fn mode(is_copied: bool) -> Option<&'static str> {
    if is_copied { Some("copy") } else { None }
}

fn flag(is_set: bool) -> Option<bool> {
    if is_set { Some(true) } else { None }
}

/// Returns the target of our answer, which has what is done.
fn target_done(address: Option<&Value>, is_dynamic: bool) -> Target<'_>
    ensures capabilities { result.capabilities ≡ None }
    ensures durable { result.durable ≡ None }
    ensures expiry { result.expiry_policy ≡ None }
{
    Target {
        address,
        durable: None,
        expiry_policy: None,
        timeout: None,
        dynamic: flag(is_dynamic),
        dynamic_node_properties: None,
        capabilities: None,
    }
}

/// Returns the source of our answer, as an attach carries it.
pub fn source_value(
    alloc: Global,
    address: &Text,
    is_dynamic: bool,
    is_copied: bool,
) -> Result<Boxed<Value>, AllocError> {
    let address = Value::Str(address.clone()?);
    let value = source_done(&address, is_dynamic, is_copied).to_value(alloc)?;
    Boxed::new(alloc, value)
}

/// Returns the target of our answer, as an attach carries it.
pub fn target_value(
    alloc: Global,
    address: Option<&Text>,
    is_dynamic: bool,
) -> Result<Boxed<Value>, AllocError> {
    let address = match address {
        Some(address) => Some(Value::Str(address.clone()?)),
        None => None,
    };
    let value = target_done(address.as_ref(), is_dynamic).to_value(alloc)?;
    Boxed::new(alloc, value)
}
