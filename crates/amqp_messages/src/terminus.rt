//! The two termini of a link: its source and its target (part 3, 3.5).
ghost use Rattle.std.specs.Prelude.{◌≡◌, MatchOption, IfOk, option_map};
ghost use Rattle.amqp_types.specs.Datum.{described, list};
ghost use Rattle.amqp_types.specs.View.{view, views};
ghost use Rattle.amqp_performatives.specs.Part.{Fits, canonical};
ghost use Rattle.amqp_performatives.specs.Fair.{is_descriptor};
ghost use Rattle.amqp_messages.specs.Lending.{fields_at};
ghost use Rattle.amqp_messages.specs.Termini.{source_part, target_part, source_fields, target_fields, numbered, IsFairSource, IsFairTarget, described_in, list_in, IsListOf, IsNoList};

use crate::field::{any, are_null, boolean, mapping, symbol, uint};
use crate::lent::{self, Lent, list_of};
use amqp_types::{Boxed, Items, Value};
use std::alloc::{AllocError, Global};

/// The source of a link, from which its messages come, with borrowed fields (part 3, 3.5.3).
///
/// A field that is absent is `None`: the standard's default is not filled in. The types of `address`,
/// `default_outcome`, `outcomes` and `capabilities` are not checked.
#[derive(Clone, Copy, Debug)]
pub struct Source<'a> {
    /// The address of the node: a string (part 3, 3.2.15).
    pub address: Option<&'a Value>,
    /// What is kept durably: 0 nothing (the default), 1 the configuration, 2 unsettled states too (part 3, 3.5.5).
    pub durable: Option<u32>,
    /// The event after which the terminus expires (part 3, 3.5.6). The default is `session-end`.
    pub expiry_policy: Option<&'a str>,
    /// How long an expiring terminus is kept, in seconds. The default is 0.
    pub timeout: Option<u32>,
    /// Whether the peer is asked to create the node. The default is false.
    pub dynamic: Option<bool>,
    /// The properties of the node to be created (part 3, 3.5.9).
    pub dynamic_node_properties: Option<&'a [(Value, Value)]>,
    /// How the messages are distributed: `move` or `copy` (part 3, 3.5.7).
    pub distribution_mode: Option<&'a str>,
    /// The filters that choose messages (part 3, 3.5.8).
    pub filter: Option<&'a [(Value, Value)]>,
    /// The outcome of a delivery that is settled without a terminal state.
    pub default_outcome: Option<&'a Value>,
    /// The descriptors of the outcomes that may be chosen: a symbol, or an array of symbols.
    pub outcomes: Option<&'a Value>,
    /// Extension capabilities: a symbol, or an array of symbols.
    pub capabilities: Option<&'a Value>,
}

/// The target of a link, to which its messages go, with borrowed fields (part 3, 3.5.4).
///
/// A field that is absent is `None`: the standard's default is not filled in. The types of `address` and
/// `capabilities` are not checked.
#[derive(Clone, Copy, Debug)]
pub struct Target<'a> {
    /// The address of the node: a string (part 3, 3.2.15).
    pub address: Option<&'a Value>,
    /// What is kept durably: 0 nothing (the default), 1 the configuration, 2 unsettled states too (part 3, 3.5.5).
    pub durable: Option<u32>,
    /// The event after which the terminus expires (part 3, 3.5.6). The default is `session-end`.
    pub expiry_policy: Option<&'a str>,
    /// How long an expiring terminus is kept, in seconds. The default is 0.
    pub timeout: Option<u32>,
    /// Whether the peer is asked to create the node. The default is false.
    pub dynamic: Option<bool>,
    /// The properties of the node to be created (part 3, 3.5.9).
    pub dynamic_node_properties: Option<&'a [(Value, Value)]>,
    /// Extension capabilities: a symbol, or an array of symbols.
    pub capabilities: Option<&'a Value>,
}

fn is_descriptor(value: &Value, number: u64, name: &str) -> bool
    ensures { result ≡ is_descriptor (number, name.now) (view value.now) }
{
    match value {
        Value::Ulong(n) => *n == number,
        Value::Symbol(text) => text.as_str() == name,
        _ => false,
    }
}

fn parts_of(value: &Value) -> Option<(&Value, &Value)>
    ensures { option_map (λ x. described (view x.0.now) (view x.1.now)) result ≡ described_in (view value.now) }
{
    match value {
        Value::Described(descriptor, described) => Some((descriptor.get(), described.get())),
        _ => None,
    }
}

fn items_of(value: &Value) -> Option<&[Value]>
    ensures { option_map (λ x. list (views x.now)) result ≡ list_in (view value.now) }
{
    match value {
        Value::List(items) => Some(items.as_slice()),
        _ => None,
    }
}

fn described_by(alloc: Global, number: u64, items: Items<Value>) -> Result<Value, AllocError>
    ensures { IfOk result (λ value. view value ≡ described (numbered number) (list (views items))) }
{
    let descriptor = Boxed::new(alloc, Value::Ulong(number))?;
    let body = Boxed::new(alloc, Value::List(items))?;
    Ok(Value::Described(descriptor, body))
}

fn fields_of<'a>(value: &'a Value, number: u64, name: &str) -> Option<&'a [Value]>
    ensures { MatchOption result (IsNoList (number, name.now) (view value.now)) (λ items. IsListOf (number, name.now) (view value.now) (views items.now)) }
{
    let Some((descriptor, described)) = parts_of(value) else {
        return None;
    };
    if !is_descriptor(descriptor, number, name) {
        return None;
    }
    match items_of(described) {
        Some(items) => Some(items),
        None => None,
    }
}

impl<'a> Source<'a> {
    /// Reads a source from the value that an attach carries. Does not copy the fields.
    ///
    /// Fields may be null, and fields at the end may be left off. Returns `None` exactly if the value is not a source:
    /// it is no list with a source's descriptor, a field has another type, or a non-null value follows the last field.
    pub fn read(value: &'a Value) -> Option<Source<'a>>
        ensures { MatchOption result ((s : Source) → IsFairSource s → Fits (source_part s) (view value.now) → ⊥) (λ s. IsFairSource s × Fits (source_part s) (view value.now)) }
    {
        let fields = fields_of(value, 0x28, "amqp:source:list")?;
        let (address, items) = any(fields)?;
        let (durable, items) = uint(items)?;
        let (expiry_policy, items) = symbol(items)?;
        let (timeout, items) = uint(items)?;
        let (dynamic, items) = boolean(items)?;
        let (dynamic_node_properties, items) = mapping(items)?;
        let (distribution_mode, items) = symbol(items)?;
        let (filter, items) = mapping(items)?;
        let (default_outcome, items) = any(items)?;
        let (outcomes, items) = any(items)?;
        let (capabilities, items) = any(items)?;
        if !are_null(items) {
            return None;
        }
        Some(Source {
            address,
            durable,
            expiry_policy,
            timeout,
            dynamic,
            dynamic_node_properties,
            distribution_mode,
            filter,
            default_outcome,
            outcomes,
            capabilities,
        })
    }

    /// Returns the described list that has these fields, as an attach carries it. The fields are copied. An
    /// absent field is null, or left off at the end.
    ///
    /// # Errors
    ///
    /// [`AllocError`] if memory runs out.
    pub fn to_value(&self, alloc: Global) -> Result<Value, AllocError>
        ensures { IfOk result (λ value. view value ≡ canonical (source_part self.now)) }
    {
        let items = list_of(alloc, &self.fields())?;
        described_by(alloc, 0x28, items)
    }

    fn fields(&self) -> [Lent<'a>; 11]
        ensures { fields_at result ≡ source_fields self.now }
    {
        [
            lent::any(self.address),
            lent::uint(self.durable),
            lent::symbol(self.expiry_policy),
            lent::uint(self.timeout),
            lent::boolean(self.dynamic),
            lent::mapping(self.dynamic_node_properties),
            lent::symbol(self.distribution_mode),
            lent::mapping(self.filter),
            lent::any(self.default_outcome),
            lent::any(self.outcomes),
            lent::any(self.capabilities),
        ]
    }
}

impl<'a> Target<'a> {
    /// Reads a target from the value that an attach carries. Does not copy the fields.
    ///
    /// Fields may be null, and fields at the end may be left off. Returns `None` exactly if the value is not a target:
    /// it is no list with a target's descriptor, a field has another type, or a non-null value follows the last field.
    pub fn read(value: &'a Value) -> Option<Target<'a>>
        ensures { MatchOption result ((t : Target) → IsFairTarget t → Fits (target_part t) (view value.now) → ⊥) (λ t. IsFairTarget t × Fits (target_part t) (view value.now)) }
    {
        let fields = fields_of(value, 0x29, "amqp:target:list")?;
        let (address, items) = any(fields)?;
        let (durable, items) = uint(items)?;
        let (expiry_policy, items) = symbol(items)?;
        let (timeout, items) = uint(items)?;
        let (dynamic, items) = boolean(items)?;
        let (dynamic_node_properties, items) = mapping(items)?;
        let (capabilities, items) = any(items)?;
        if !are_null(items) {
            return None;
        }
        Some(Target {
            address,
            durable,
            expiry_policy,
            timeout,
            dynamic,
            dynamic_node_properties,
            capabilities,
        })
    }

    /// Returns the described list that has these fields, as an attach carries it. The fields are copied. An
    /// absent field is null, or left off at the end.
    ///
    /// # Errors
    ///
    /// [`AllocError`] if memory runs out.
    pub fn to_value(&self, alloc: Global) -> Result<Value, AllocError>
        ensures { IfOk result (λ value. view value ≡ canonical (target_part self.now)) }
    {
        let items = list_of(alloc, &self.fields())?;
        described_by(alloc, 0x29, items)
    }

    fn fields(&self) -> [Lent<'a>; 7]
        ensures { fields_at result ≡ target_fields self.now }
    {
        [
            lent::any(self.address),
            lent::uint(self.durable),
            lent::symbol(self.expiry_policy),
            lent::uint(self.timeout),
            lent::boolean(self.dynamic),
            lent::mapping(self.dynamic_node_properties),
            lent::any(self.capabilities),
        ]
    }
}
