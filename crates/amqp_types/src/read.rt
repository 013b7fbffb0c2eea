//! Reads the value at the start of octets.
ghost use Rattle.std.specs.Prelude.{◌≡◌, ◌≤◌, ◌++◌, ℕ, List, length, take, IfOk, Err};
ghost use Rattle.amqp_types.specs.Datum.{Datum};
ghost use Rattle.amqp_types.specs.Grammar.{SpellsWithin, Spells, BeginsWithValue};
ghost use Rattle.amqp_types.specs.View.{view};

use crate::fault::ReadFault;
use crate::parts::part;
use crate::skip::skip_within;
use crate::value::{MAX_DEPTH, Value};
use std::alloc::Global;

/// Reads the value at the start of `bytes`, and returns it with the number of octets that encode it.
///
/// The value is nested at most [`MAX_DEPTH`] deep. Every encoding is accepted. Octets may follow the value.
///
/// # Errors
///
/// [`ReadFault::NoValue`] if `bytes` does not start with such a value; [`ReadFault::NoMemory`] if it does, but memory
/// runs out. If memory runs out, a second pass, which allocates nothing, determines the error.
///
/// # Memory
///
/// A `Value` takes 48 bytes, and a list takes the capacity to which a `Vec` grows. So a list of one-octet items takes
/// 50 to 100 bytes of memory for each octet that encodes it. An array whose elements have no body (such as null or zero)
/// takes most: four octets encode 255 such elements, which take 12 KiB, or 3,072 bytes for each octet. A program that
/// reads from a peer bounds this memory by the number of octets that it reads at once.
pub fn read_value(alloc: Global, bytes: &[u8]) -> Result<(Value, usize), ReadFault>
    // The octets encode the value that is returned.
    ensures within { IfOk result (λ found. found.1 ≤ length bytes.now) }
    ensures found { IfOk result (λ found. Spells (view found.0) (take found.1 bytes.now)) }

    // No other value is at the start, and none of another length.
    ensures only { (v : Datum) (x rest : List ℕ) → Spells v x → bytes.now ≡ x ++ rest → IfOk result (λ found. (view found.0 ≡ v) × (found.1 ≡ length x)) }

    // When each error is returned.
    ensures none { result ≡ Err ReadFault.NoValue → ¬ (BeginsWithValue 32 bytes.now) }
    ensures memory { result ≡ Err ReadFault.NoMemory → BeginsWithValue 32 bytes.now }
{
    read_within(alloc, MAX_DEPTH, bytes)
}

/// Reads a value nested at most `depth` deep at the start of `bytes`, and returns it with the number of its octets.
///
/// Suits a value inside others. [`read_value`] describes the memory that a value takes.
///
/// # Errors
///
/// [`ReadFault::NoValue`] if `bytes` starts with no such value; [`ReadFault::NoMemory`] if it does but memory runs out.
pub fn read_within(alloc: Global, depth: u8, bytes: &[u8]) -> Result<(Value, usize), ReadFault>
    ensures within { IfOk result (λ found. found.1 ≤ length bytes.now) }
    ensures found { IfOk result (λ found. SpellsWithin depth (view found.0) (take found.1 bytes.now)) }
    ensures only { (v : Datum) (x rest : List ℕ) → SpellsWithin depth v x → bytes.now ≡ x ++ rest → IfOk result (λ found. (view found.0 ≡ v) × (found.1 ≡ length x)) }
    ensures none { result ≡ Err ReadFault.NoValue → ¬ (BeginsWithValue depth bytes.now) }
    ensures memory { result ≡ Err ReadFault.NoMemory → BeginsWithValue depth bytes.now }
{
    match part(alloc, depth, None, bytes) {
        Ok((value, rest)) => Ok((value, bytes.len() - rest.len())),
        Err(ReadFault::NoValue) => Err(ReadFault::NoValue),
        Err(ReadFault::NoMemory) => {
            if skip_within(depth, bytes).is_some() {
                Err(ReadFault::NoMemory)
            } else {
                Err(ReadFault::NoValue)
            }
        }
    }
}

/// Proves that octets encode at most one value, and that no encoding is a proper prefix of another.
pub fn one_spelling()
    ensures { (v w : Datum) (a b x y : List ℕ) → Spells v a → Spells w b → a ++ x ≡ b ++ y → (v ≡ w) × (a ≡ b) }
{}
