//! Encodes one level of a value: its format code, and the size and count between the code and the content.
ghost use Rattle.std.specs.Prelude.{◌≡◌, ◌≤◌, Some, None, length, option_map, MatchOption};
ghost use Rattle.amqp_types.specs.Canon.{Writes, unread_number, field, size_field, number_form, octets_head, compound_head, array_head};
ghost use Rattle.amqp_types.specs.Writing.{number_code, octets_code, compound_code};
ghost use Rattle.amqp_types.specs.Forms.{head_form, head_code, spelled_head, capped_with};

use crate::class::{Class, Conversion, Kind, Run, Width, class_of, kind_index, run_index};
use crate::fault::WriteFault;
use crate::leaves::{fits, is_run};
use crate::parts::{is_element, is_even};

/// Holds one level of a value, with the sizes in octets of its parts in place of the parts.
#[derive(Drop)]
pub(crate) enum Head<'a> {
    Number(Kind, u64),
    Octets(Run, &'a [u8]),
    /// The count of the items and their size.
    List(u64, u64),
    Map(u64, u64),
    /// The format code of the elements, their count and the size of their bodies.
    Array(u8, u64, u64),
    Described,
}

fn unread_number(reading: Conversion, n: u64) -> Option<u64>
    ensures { result ≡ unread_number reading n }
{
    match reading {
        Conversion::Plain => Some(n),
        Conversion::One => if n == 1 { Some(0) } else { None },
        Conversion::Widened32 => {
            if n < 128 {
                Some(n)
            } else if n < 0xffff_ff80 {
                None
            } else {
                Some(n - 0xffff_ff00)
            }
        }
        Conversion::Widened64 => {
            if n < 128 {
                Some(n)
            } else if n < 0xffff_ffff_ffff_ff80 {
                None
            } else {
                Some(n - 0xffff_ffff_ffff_ff00)
            }
        }
    }
}

fn field_len(width: Width, n: u64) -> Option<u64>
    ensures { result ≡ option_map (λ h. length h) (field width n) }
{
    match width {
        Width::Zero => if n == 0 { Some(0) } else { None },
        Width::One => if n < 0x100 { Some(1) } else { None },
        Width::Two => if n < 0x1_0000 { Some(2) } else { None },
        Width::Four => if n < 0x1_0000_0000 { Some(4) } else { None },
        Width::Eight => Some(8),
    }
}

fn put_field(width: Width, n: u64, out: &mut Vec<u8>) -> Result<(), WriteFault>
    ensures { Writes (field width n) result out.old.items out.new.items }
{
    match width {
        Width::Zero if n == 0 => Ok(()),
        Width::One if n < 0x100 => Ok(out.extend_from_slice(&(n as u8).to_be_bytes())?),
        Width::Two if n < 0x1_0000 => Ok(out.extend_from_slice(&(n as u16).to_be_bytes())?),
        Width::Four if n < 0x1_0000_0000 => Ok(out.extend_from_slice(&(n as u32).to_be_bytes())?),
        Width::Eight => Ok(out.extend_from_slice(&n.to_be_bytes())?),
        _ => Err(WriteFault::NotWritable),
    }
}

fn number_in(class: Class, kind: Kind, n: u64) -> Option<(Width, u64)>
    ensures { MatchOption result (number_form class kind n ≡ None) (λ kept. number_form class kind n ≡ field kept.0 kept.1) }
{
    match class {
        Class::Number(other, width, reading) => {
            if kind_index(other) != kind_index(kind) {
                return None;
            }
            if !fits(kind, n) {
                return None;
            }
            match unread_number(reading, n) {
                Some(m) => Some((width, m)),
                None => None,
            }
        }
        _ => None,
    }
}

fn size_len(width: Width, n: u64) -> Option<u64>
    ensures { result ≡ option_map (λ h. length h) (size_field width n) }
{
    match width {
        Width::One => field_len(Width::One, n),
        Width::Four => field_len(Width::Four, n),
        _ => None,
    }
}

fn put_size(width: Width, n: u64, out: &mut Vec<u8>) -> Result<(), WriteFault>
    ensures { Writes (size_field width n) result out.old.items out.new.items }
{
    match width {
        Width::One => put_field(Width::One, n, out),
        Width::Four => put_field(Width::Four, n, out),
        _ => Err(WriteFault::NotWritable),
    }
}

fn put_compound(width: Width, count: u64, size: u64, out: &mut Vec<u8>) -> Result<(), WriteFault>
    ensures { Writes (compound_head width count size) result out.old.items out.new.items }
{
    match size.checked_add(width.octets() as u64) {
        None => Err(WriteFault::NotWritable),
        Some(whole) => {
            put_size(width, whole, out)?;
            put_size(width, count, out)
        }
    }
}

fn compound_len(width: Width, count: u64, size: u64) -> Option<u64>
    ensures { result ≡ option_map (λ h. length h) (compound_head width count size) }
{
    match size.checked_add(width.octets() as u64) {
        None => None,
        Some(whole) => {
            let first = size_len(width, whole)?;
            let second = size_len(width, count)?;
            Some(first.saturating_add(second))
        }
    }
}

fn octets_head_len(class: Class, run: Run, octets: &[u8]) -> Option<u64>
    ensures { result ≡ option_map (λ h. length h) (octets_head class run octets.now) }
{
    match class {
        Class::Octets(other, width) => {
            if run_index(other) == run_index(run) && is_run(run, octets) {
                size_len(width, octets.len() as u64)
            } else {
                None
            }
        }
        Class::Sixteen(other) => {
            if run_index(other) == run_index(run) && is_run(run, octets) && octets.len() == 16 {
                Some(0)
            } else {
                None
            }
        }
        _ => None,
    }
}

fn put_octets_head(
    class: Class,
    run: Run,
    octets: &[u8],
    out: &mut Vec<u8>,
) -> Result<(), WriteFault>
    ensures { Writes (octets_head class run octets.now) result out.old.items out.new.items }
{
    match class {
        Class::Octets(other, width) => {
            if run_index(other) == run_index(run) && is_run(run, octets) {
                put_size(width, octets.len() as u64, out)
            } else {
                Err(WriteFault::NotWritable)
            }
        }
        Class::Sixteen(other) => {
            if run_index(other) == run_index(run) && is_run(run, octets) && octets.len() == 16 {
                Ok(())
            } else {
                Err(WriteFault::NotWritable)
            }
        }
        _ => Err(WriteFault::NotWritable),
    }
}

fn array_head_len(class: Class, code: u8, count: u64, size: u64) -> Option<u64>
    ensures { result ≡ option_map (λ h. length h) (array_head class code count size) }
{
    match class {
        Class::Array(width) => {
            if !is_element(class_of(code), count) {
                return None;
            }
            let whole = size.checked_add(1)?;
            let len = compound_len(width, count, whole)?;
            Some(len.saturating_add(1))
        }
        _ => None,
    }
}

fn put_array_head(
    class: Class,
    code: u8,
    count: u64,
    size: u64,
    out: &mut Vec<u8>,
) -> Result<(), WriteFault>
    ensures { Writes (array_head class code count size) result out.old.items out.new.items }
{
    match class {
        Class::Array(width) => {
            if !is_element(class_of(code), count) {
                return Err(WriteFault::NotWritable);
            }
            let Some(whole) = size.checked_add(1) else {
                return Err(WriteFault::NotWritable);
            };
            put_compound(width, count, whole, out)?;
            out.push(code)?;
            Ok(())
        }
        _ => Err(WriteFault::NotWritable),
    }
}

fn head_len(head: &Head<'_>, class: Class) -> Option<u64>
    ensures { result ≡ option_map (λ h. length h) (head_form head.now class) }
{
    match head {
        Head::Number(kind, n) => {
            let (width, m) = number_in(class, *kind, *n)?;
            field_len(width, m)
        }
        Head::Octets(run, octets) => octets_head_len(class, *run, octets),
        Head::List(count, size) => match class {
            Class::EmptyList => if *count == 0 { Some(0) } else { None },
            Class::List(width) => compound_len(width, *count, *size),
            _ => None,
        },
        Head::Map(count, size) => match class {
            Class::Map(width) => if is_even(*count) {
                compound_len(width, *count, *size)
            } else {
                None
            },
            _ => None,
        },
        Head::Array(code, count, size) => array_head_len(class, *code, *count, *size),
        Head::Described => match class {
            Class::Described => Some(0),
            _ => None,
        },
    }
}

fn put_head(head: &Head<'_>, class: Class, out: &mut Vec<u8>) -> Result<(), WriteFault>
    ensures { Writes (head_form head.now class) result out.old.items out.new.items }
{
    match head {
        Head::Number(kind, n) => match number_in(class, *kind, *n) {
            Some((width, m)) => put_field(width, m, out),
            None => Err(WriteFault::NotWritable),
        },
        Head::Octets(run, octets) => put_octets_head(class, *run, octets, out),
        Head::List(count, size) => match class {
            Class::EmptyList => if *count == 0 {
                Ok(())
            } else {
                Err(WriteFault::NotWritable)
            },
            Class::List(width) => put_compound(width, *count, *size, out),
            _ => Err(WriteFault::NotWritable),
        },
        Head::Map(count, size) => match class {
            Class::Map(width) => if is_even(*count) {
                put_compound(width, *count, *size, out)
            } else {
                Err(WriteFault::NotWritable)
            },
            _ => Err(WriteFault::NotWritable),
        },
        Head::Array(code, count, size) => put_array_head(class, *code, *count, *size, out),
        Head::Described => match class {
            Class::Described => Ok(()),
            _ => Err(WriteFault::NotWritable),
        },
    }
}

fn number_code(kind: Kind, n: u64) -> u8
    ensures { result ≡ number_code kind n }
{
    match kind {
        Kind::Null => 0x40,
        Kind::Bool => if n == 0 { 0x42 } else { 0x41 },
        Kind::Ubyte => 0x50,
        Kind::Ushort => 0x60,
        Kind::Uint => if n == 0 {
            0x43
        } else if n < 256 {
            0x52
        } else {
            0x70
        },
        Kind::Ulong => if n == 0 {
            0x44
        } else if n < 256 {
            0x53
        } else {
            0x80
        },
        Kind::Sbyte => 0x51,
        Kind::Short => 0x61,
        Kind::Int => if n < 128 {
            0x54
        } else if n < 0xffff_ff80 {
            0x71
        } else {
            0x54
        },
        Kind::Long => if n < 128 {
            0x55
        } else if n < 0xffff_ffff_ffff_ff80 {
            0x81
        } else {
            0x55
        },
        Kind::FloatBits => 0x72,
        Kind::DoubleBits => 0x82,
        Kind::Dec32 => 0x74,
        Kind::Dec64 => 0x84,
        Kind::Char => 0x73,
        Kind::Timestamp => 0x83,
    }
}

fn octets_code(run: Run, len: usize) -> u8
    ensures { result ≡ octets_code run len }
{
    match run {
        Run::Binary => if len < 256 { 0xa0 } else { 0xb0 },
        Run::Str => if len < 256 { 0xa1 } else { 0xb1 },
        Run::Symbol => if len < 256 { 0xa3 } else { 0xb3 },
        Run::Dec128 => 0x94,
        Run::Uuid => 0x98,
    }
}

fn compound_code(small: u8, large: u8, count: u64, size: u64) -> u8
    ensures { result ≡ compound_code small large count size }
{
    if size < 255 && count < 256 {
        small
    } else {
        large
    }
}

fn head_code(head: &Head<'_>) -> u8
    ensures { result ≡ head_code head.now }
{
    match head {
        Head::Number(kind, n) => number_code(*kind, *n),
        Head::Octets(run, octets) => octets_code(*run, octets.len()),
        Head::List(count, size) => if *count == 0 {
            0x45
        } else {
            compound_code(0xc0, 0xd0, *count, *size)
        },
        Head::Map(count, size) => compound_code(0xc1, 0xd1, *count, *size),
        Head::Array(_, count, size) => compound_code(0xe0, 0xf0, *count, size.saturating_add(1)),
        Head::Described => 0,
    }
}

/// Returns the length in octets of the head and of a content of `size` octets after it, capped at `u64::MAX`.
///
/// If `how` is a code, the head is an element of an array under that code and has none of its own. Returns `None` if
/// the head has no encoding.
pub(crate) fn spelled_len(head: &Head<'_>, how: Option<u8>, size: u64) -> Option<u64>
    ensures { result ≡ capped_with size (spelled_head how head.now) }
{
    match how {
        Some(code) => {
            let len = head_len(head, class_of(code))?;
            Some(len.saturating_add(size))
        }
        None => {
            let len = head_len(head, class_of(head_code(head)))?;
            Some(len.saturating_add(1).saturating_add(size))
        }
    }
}

/// Appends the head to `out`, with its own format code, or without one if `how` is the code of the array around it.
///
/// # Errors
///
/// [`WriteFault::NotWritable`] if the head has no encoding; [`WriteFault::NoMemory`] if memory runs out. After either,
/// `out` may have more octets than before.
pub(crate) fn put_spelled_head(
    head: &Head<'_>,
    how: Option<u8>,
    out: &mut Vec<u8>,
) -> Result<(), WriteFault>
    ensures { Writes (spelled_head how head.now) result out.old.items out.new.items }
{
    match how {
        Some(code) => put_head(head, class_of(code), out),
        None => {
            let code = head_code(head);
            out.push(code)?;
            put_head(head, class_of(code), out)
        }
    }
}
