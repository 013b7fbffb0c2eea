//! Readers for the fields of a composite type, which take them one after the other from a list's values (part 1, 1.4).
//!
//! Each reader returns the first field and the values after it, or `None` if the first value has another type. A field
//! that is null or left off is absent. Fields are borrowed from the values, so that nothing is allocated.
ghost use Rattle.std.specs.Prelude.{◌≡◌, ◌↔◌, IsTrue, option_map};
ghost use Rattle.amqp_types.specs.View.{view, views};
ghost use Rattle.amqp_performatives.specs.Part.{no_field, null, FitInOrder};
ghost use Rattle.amqp_performatives.specs.Bodies.{optional, boolean, ubyte, uint};
ghost use Rattle.amqp_messages.specs.Fields.{timestamp, lent_string, lent_symbol, lent_binary, lent_mapping, lent_any, is_boolean, is_ubyte, is_uint, is_timestamp, is_string, is_symbol, is_binary, is_mapping, is_present, field_in, TakesField};

use amqp_types::Value;

/// Returns true if each of the values is null, as values past the last field must be.
pub(crate) fn are_null(items: &[Value]) -> bool
    ensures { IsTrue result ↔ FitInOrder no_field (views items.now) }
{
    for item in items {
        if !is_null(item) {
            return false;
        }
    }
    true
}

fn is_null(value: &Value) -> bool
    ensures { IsTrue result ↔ (view value.now ≡ null) }
{
    match value {
        Value::Null => true,
        _ => false,
    }
}

fn boolean_of(value: &Value) -> Option<Option<bool>>
    ensures { option_map (λ r. optional boolean r) result ≡ field_in is_boolean (view value.now) }
{
    match value {
        Value::Null => Some(None),
        Value::Bool(b) => Some(Some(*b)),
        _ => None,
    }
}

/// Reads a boolean field and returns it with the values after it.
pub(crate) fn boolean(items: &[Value]) -> Option<(Option<bool>, &[Value])>
    ensures { TakesField is_boolean (views items.now) (option_map (λ x. (optional boolean x.0, views x.1.now)) result) }
{
    match items.split_first() {
        None => Some((None, items)),
        Some((value, rest)) => match boolean_of(value) {
            Some(found) => Some((found, rest)),
            None => None,
        },
    }
}

fn ubyte_of(value: &Value) -> Option<Option<u8>>
    ensures { option_map (λ r. optional ubyte r) result ≡ field_in is_ubyte (view value.now) }
{
    match value {
        Value::Null => Some(None),
        Value::Ubyte(n) => Some(Some(*n)),
        _ => None,
    }
}

/// Reads a ubyte field and returns it with the values after it.
pub(crate) fn ubyte(items: &[Value]) -> Option<(Option<u8>, &[Value])>
    ensures { TakesField is_ubyte (views items.now) (option_map (λ x. (optional ubyte x.0, views x.1.now)) result) }
{
    match items.split_first() {
        None => Some((None, items)),
        Some((value, rest)) => match ubyte_of(value) {
            Some(found) => Some((found, rest)),
            None => None,
        },
    }
}

fn uint_of(value: &Value) -> Option<Option<u32>>
    ensures { option_map (λ r. optional uint r) result ≡ field_in is_uint (view value.now) }
{
    match value {
        Value::Null => Some(None),
        Value::Uint(n) => Some(Some(*n)),
        _ => None,
    }
}

/// Reads a uint field and returns it with the values after it.
pub(crate) fn uint(items: &[Value]) -> Option<(Option<u32>, &[Value])>
    ensures { TakesField is_uint (views items.now) (option_map (λ x. (optional uint x.0, views x.1.now)) result) }
{
    match items.split_first() {
        None => Some((None, items)),
        Some((value, rest)) => match uint_of(value) {
            Some(found) => Some((found, rest)),
            None => None,
        },
    }
}

fn timestamp_of(value: &Value) -> Option<Option<i64>>
    ensures { option_map (λ r. optional timestamp r) result ≡ field_in is_timestamp (view value.now) }
{
    match value {
        Value::Null => Some(None),
        Value::Timestamp(n) => Some(Some(*n)),
        _ => None,
    }
}

/// Reads a timestamp field and returns it with the values after it.
pub(crate) fn timestamp(items: &[Value]) -> Option<(Option<i64>, &[Value])>
    ensures { TakesField is_timestamp (views items.now) (option_map (λ x. (optional timestamp x.0, views x.1.now)) result) }
{
    match items.split_first() {
        None => Some((None, items)),
        Some((value, rest)) => match timestamp_of(value) {
            Some(found) => Some((found, rest)),
            None => None,
        },
    }
}

fn string_of(value: &Value) -> Option<Option<&str>>
    ensures { option_map (λ r. lent_string r) result ≡ field_in is_string (view value.now) }
{
    match value {
        Value::Null => Some(None),
        Value::Str(text) => Some(Some(text.as_str())),
        _ => None,
    }
}

/// Reads a string field and returns it with the values after it.
pub(crate) fn string(items: &[Value]) -> Option<(Option<&str>, &[Value])>
    ensures { TakesField is_string (views items.now) (option_map (λ x. (lent_string x.0, views x.1.now)) result) }
{
    match items.split_first() {
        None => Some((None, items)),
        Some((value, rest)) => match string_of(value) {
            Some(found) => Some((found, rest)),
            None => None,
        },
    }
}

fn symbol_of(value: &Value) -> Option<Option<&str>>
    ensures { option_map (λ r. lent_symbol r) result ≡ field_in is_symbol (view value.now) }
{
    match value {
        Value::Null => Some(None),
        Value::Symbol(text) => Some(Some(text.as_str())),
        _ => None,
    }
}

/// Reads a symbol field and returns it with the values after it.
pub(crate) fn symbol(items: &[Value]) -> Option<(Option<&str>, &[Value])>
    ensures { TakesField is_symbol (views items.now) (option_map (λ x. (lent_symbol x.0, views x.1.now)) result) }
{
    match items.split_first() {
        None => Some((None, items)),
        Some((value, rest)) => match symbol_of(value) {
            Some(found) => Some((found, rest)),
            None => None,
        },
    }
}

fn binary_of(value: &Value) -> Option<Option<&[u8]>>
    ensures { option_map (λ r. lent_binary r) result ≡ field_in is_binary (view value.now) }
{
    match value {
        Value::Null => Some(None),
        Value::Binary(octets) => Some(Some(octets.as_slice())),
        _ => None,
    }
}

/// Reads a binary field and returns it with the values after it.
pub(crate) fn binary(items: &[Value]) -> Option<(Option<&[u8]>, &[Value])>
    ensures { TakesField is_binary (views items.now) (option_map (λ x. (lent_binary x.0, views x.1.now)) result) }
{
    match items.split_first() {
        None => Some((None, items)),
        Some((value, rest)) => match binary_of(value) {
            Some(found) => Some((found, rest)),
            None => None,
        },
    }
}

fn mapping_of(value: &Value) -> Option<Option<&[(Value, Value)]>>
    ensures { option_map (λ r. lent_mapping r) result ≡ field_in is_mapping (view value.now) }
{
    match value {
        Value::Null => Some(None),
        Value::Map(pairs) => Some(Some(pairs.as_slice())),
        _ => None,
    }
}

/// Reads a map field and returns it with the values after it.
pub(crate) fn mapping(items: &[Value]) -> Option<(Option<&[(Value, Value)]>, &[Value])>
    ensures { TakesField is_mapping (views items.now) (option_map (λ x. (lent_mapping x.0, views x.1.now)) result) }
{
    match items.split_first() {
        None => Some((None, items)),
        Some((value, rest)) => match mapping_of(value) {
            Some(found) => Some((found, rest)),
            None => None,
        },
    }
}

fn any_of(value: &Value) -> Option<Option<&Value>>
    ensures { option_map (λ r. lent_any r) result ≡ field_in is_present (view value.now) }
{
    match value {
        Value::Null => Some(None),
        _ => Some(Some(value)),
    }
}

/// Reads a field of any type and returns it with the values after it. Never returns `None`.
pub(crate) fn any(items: &[Value]) -> Option<(Option<&Value>, &[Value])>
    ensures { TakesField is_present (views items.now) (option_map (λ x. (lent_any x.0, views x.1.now)) result) }
{
    match items.split_first() {
        None => Some((None, items)),
        Some((value, rest)) => match any_of(value) {
            Some(found) => Some((found, rest)),
            None => None,
        },
    }
}
