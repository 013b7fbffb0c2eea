//! The composite types that stand in fields of performatives: errors (part 2, 2.8.14) and delivery states (part 3, 3.4).
ghost use Rattle.std.specs.Prelude.{◌≡◌, ◌≤◌, ◌↔◌, ℕ, IsTrue, IfOk, OnOk, MatchOption, false, option_map};
ghost use Rattle.amqp_types.specs.View.{view};
ghost use Rattle.amqp_performatives.specs.Bodies.{any, mapping, error as error_part, state, optional};
ghost use Rattle.amqp_decoder.specs.Borrowed.{is_mapping, pairs_in};
ghost use Rattle.amqp_performatives.specs.Fair.{where_present, is_present, is_fair_error, is_fair_state};
ghost use Rattle.amqp_performatives.specs.Part.{no_field, value as fixed};
ghost use Rattle.amqp_decoder.specs.Parts.{ReadsAll, error_in, error_fields, lone_error, state_in, values_in};
ghost use Rattle.amqp_decoder.specs.Reading.{AreFields, Reads, every};

use crate::borrowed::{ErrorRef, ValueRef};
use crate::fields::Cursor;
use crate::opening::open;
use amqp_performatives::{AmqpError, Composite};
use amqp_types::{Boxed, Items, Text, Value, read_null};
use std::alloc::{AllocError, Global};
use std::mem;

impl<'a> Cursor<'a> {
    /// Whether no field is left, but for null ones, and no octet.
    #[inline]
    pub(crate) fn is_at_end(self) -> bool
        ensures { IsTrue result ↔ AreFields self.entry.depth self.entry.left no_field self.entry.octets.now }
    {
        let mut rest = self;
        while rest.left > 0 {
            match read_null(rest.octets) {
                Some(used) => rest = rest.after(used),
                None => return false,
            }
        }
        rest.octets.is_empty()
    }
}

/// The fields of an error.
fn error_fields(fields: Cursor<'_>) -> Option<ErrorRef<'_>>
    ensures { ReadsAll error_fields is_fair_error fields.entry (option_map error_in result) }
{
    let (condition, fields) = fields.required_symbol()?;
    let (description, fields) = fields.string()?;
    let (info, fields) = fields.any()?;
    if !fields.is_at_end() {
        return None;
    }
    Some(ErrorRef {
        condition,
        description,
        info,
    })
}

impl<'a> Cursor<'a> {
    /// An error that is there.
    fn required_error(self) -> Option<(ErrorRef<'a>, Cursor<'a>)>
        requires { 3 ≤ self.depth }
        ensures { Reads error_part is_fair_error self.entry (option_map (λ r. (error_in r.0, r.1)) result) }
    {
        if self.left == 0 {
            return None;
        }
        match open(self.octets, self.depth as u8) {
            Some(opened) => {
                if !Composite::Error.is_named(opened.descriptor) {
                    return None;
                }
                match error_fields(opened.fields) {
                    Some(error) => Some((error, self.after(opened.used))),
                    None => None,
                }
            }
            None => None,
        }
    }

    /// An error.
    pub(crate) fn error(self) -> Option<(Option<ErrorRef<'a>>, Cursor<'a>)>
        requires { 3 ≤ self.depth }
        ensures { Reads (optional error_part) (where_present is_fair_error) self.entry (option_map (λ r. (option_map error_in r.0, r.1)) result) }
    {
        match self.absent() {
            Some(others) => Some((None, others)),
            None => match self.required_error() {
                Some((error, others)) => Some((Some(error), others)),
                None => None,
            },
        }
    }
}

/// An error that is the one field.
pub(crate) fn lone_error(fields: Cursor<'_>) -> Option<Option<ErrorRef<'_>>>
    requires { 3 ≤ fields.depth }
    ensures { ReadsAll lone_error (where_present is_fair_error) fields.entry (option_map (λ r. option_map error_in r) result) }
{
    let (error, fields) = fields.error()?;
    if !fields.is_at_end() {
        return None;
    }
    Some(error)
}

/// A value, where there is one, in memory of its own.
pub(crate) fn owned_value(
    alloc: Global,
    value: Option<ValueRef<'_>>,
) -> Result<Option<Boxed<Value>>, AllocError>
    ensures part { IfOk result (λ v. optional any v ≡ optional any (values_in value.entry)) }
    ensures fair { IfOk result (λ v. where_present is_present v ≡ where_present is_present (values_in value.entry)) }
{
    match value {
        Some(borrowed) => {
            let value = borrowed.boxed(alloc)?;
            Ok(Some(value))
        }
        None => Ok(None),
    }
}

/// The same, kept in a slot. Where there is none, and none was, nothing is dropped.
#[inline(always)]
pub(crate) fn keep_value(
    alloc: Global,
    value: Option<ValueRef<'_>>,
    slot: &mut Option<Boxed<Value>>,
) -> Result<(), AllocError>
    ensures part { OnOk result (optional any slot.new ≡ optional any (values_in value.entry)) }
    ensures fair { OnOk result (where_present is_present slot.new ≡ where_present is_present (values_in value.entry)) }
{
    match value {
        Some(borrowed) => {
            let value = borrowed.boxed(alloc)?;
            *slot = Some(value);
        }
        None => {
            if slot.is_some() {
                *slot = None;
            }
        }
    }
    Ok(())
}

/// A text, where there is one, in memory of its own.
pub(crate) fn owned_text(alloc: Global, text: Option<&str>) -> Result<Option<Text>, AllocError>
    ensures { IfOk result (λ t. t ≡ option_map (λ r. r.now) text.entry) }
{
    match text {
        Some(borrowed) => {
            let text = Text::new(alloc, borrowed)?;
            Ok(Some(text))
        }
        None => Ok(None),
    }
}

/// An error, where there is one, in memory of its own.
pub(crate) fn owned_error(
    alloc: Global,
    error: Option<ErrorRef<'_>>,
) -> Result<Option<Boxed<AmqpError>>, AllocError>
    ensures part { IfOk result (λ e. optional error_part e ≡ optional error_part (option_map error_in error.entry)) }
    ensures fair { IfOk result (λ e. where_present is_fair_error e ≡ where_present is_fair_error (option_map error_in error.entry)) }
{
    match error {
        Some(borrowed) => {
            let condition = Text::new(alloc, borrowed.condition)?;
            let description = owned_text(alloc, borrowed.description)?;
            let info = owned_value(alloc, borrowed.info)?;
            let error = AmqpError {
                condition,
                description,
                info,
            };
            let error = Boxed::new(alloc, error)?;
            Ok(Some(error))
        }
        None => Ok(None),
    }
}

/// The pairs that a value is, where it is a map.
fn pairs_of(alloc: Global, mut read: Value) -> Option<Items<(Value, Value)>>
    ensures { MatchOption result (is_mapping (view read) ≡ false) (λ pairs. mapping pairs ≡ fixed (view read)) }
{
    match &mut read {
        Value::Map(pairs) => Some(mem::replace(pairs, Items::new(alloc))),
        _ => None,
    }
}

/// A map, where there is one, in memory of its own.
pub(crate) fn owned_map(
    alloc: Global,
    map: Option<ValueRef<'_>>,
) -> Result<Option<Items<(Value, Value)>>, AllocError>
    ensures { IfOk result (λ m. optional mapping m ≡ optional mapping (option_map (λ r. pairs_in r.octets.now) map.entry)) }
{
    match map {
        Some(borrowed) => {
            let read = borrowed.owned(alloc)?;
            match pairs_of(alloc, read) {
                Some(pairs) => Ok(Some(pairs)),
                // No other value is borrowed as a map.
                None => Err(AllocError),
            }
        }
        None => Ok(None),
    }
}
