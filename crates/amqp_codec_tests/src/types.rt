//! The spellings of the standard's types, both ways, and each call that takes memory once where there is enough of it. A value and a text are owned
//! by one helper each. A call that is refused memory is made `again` in tests of growths alone.
use amqp_types::*;
use std::alloc::{AllocError, Global};

/// The value in front. Where memory is refused, it is read once more, if it is to be.
pub(crate) fn reads(
    alloc: Global,
    octets: &[u8],
    again: bool,
) -> Result<(Value, usize), ReadFault> {
    match read_value(alloc, octets) {
        Err(ReadFault::NoMemory) if again => read_value(alloc, octets),
        read => read,
    }
}

fn copies(value: &Value, again: bool) -> Result<Value, AllocError> {
    match value.clone() {
        Ok(copy) => Ok(copy),
        Err(_) if again => value.clone(),
        Err(refused) => Err(refused),
    }
}

/// Whether the value is written behind the octets, of which there are as many as before where it was refused.
fn is_written_behind(value: &Value, out: &mut Vec<u8>, again: bool) -> bool {
    let before = out.len();
    match write_value(value, out) {
        Err(WriteFault::NoMemory) if again && out.len() == before => {
            write_value(value, out).is_ok()
        }
        answer => answer.is_ok(),
    }
}

/// Whether a copy of the value is equal to it, and is written.
fn is_copied_and_written(value: &Value, out: &mut Vec<u8>, again: bool) -> bool {
    match copies(value, again) {
        Ok(copy) => {
            let is_same = copy == *value && is_written_behind(&copy, out, again);
            drop(copy);
            is_same
        }
        Err(_) => false,
    }
}

/// Writes a copy of the value in front, which is equal to it, and answers the rest.
pub(crate) fn rewrites<'a>(
    alloc: Global,
    octets: &'a [u8],
    out: &mut Vec<u8>,
    again: bool,
) -> Option<&'a [u8]> {
    match reads(alloc, octets, again) {
        Ok((value, used)) => {
            let is_same = is_copied_and_written(&value, out, again);
            drop(value);
            if is_same { octets.get(used..) } else { None }
        }
        Err(_) => None,
    }
}

/// Whether there are so many values one after the other, and these are their canonical spellings.
fn are_again(alloc: Global, count: u8, octets: &[u8], canonical: &[u8]) -> bool {
    let mut out = Vec::new(alloc);
    let mut rest = octets;
    for _ in 0..count {
        match rewrites(alloc, rest, &mut out, false) {
            Some(others) => rest = others,
            None => return false,
        }
    }
    rest.is_empty() && out.as_slice() == canonical
}

/// Null, booleans, numbers and octets, each under its shortest code.
const LEAVES: &[u8] =
    b"\x40\x41\x42\x50\x07\x60\x01\x02\x43\x52\xff\x70\x00\x00\x01\x00\x44\x53\x24\
    \x80\x00\x00\x00\x00\x00\x00\x01\x00\x51\x80\x61\x80\x00\x54\x80\x71\x00\x00\x00\x80\
    \x55\x80\x81\xff\xff\xff\xff\xff\xff\xff\x7f\x72\x3f\x80\x00\x00\
    \x82\x3f\xf0\x00\x00\x00\x00\x00\x00\x74\x22\x50\x00\x00\
    \x84\x22\x30\x00\x00\x00\x00\x00\x01\x73\x00\x01\xf6\x00\
    \x83\xff\xff\xff\xff\xff\xff\xff\xff\xa0\x02\x00\xff\xa1\x02\xc3\xa9\xa3\x01\x78\
    \x94\x00\x01\x02\x03\x04\x05\x06\x07\x08\x09\x0a\x0b\x0c\x0d\x0e\x0f\
    \x98\x0f\x0e\x0d\x0c\x0b\x0a\x09\x08\x07\x06\x05\x04\x03\x02\x01\x00";

/// Lists, maps, arrays and a described value.
const PARTS: &[u8] = b"\x45\xc0\x04\x02\x52\x01\x41\xc1\x05\x02\xa1\x01\x6b\x43\
    \xe0\x07\x02\xa3\x01\x78\x02\x79\x7a\xe0\x02\x00\xa3\x00\x53\x24\x45";

/// 32 lists, each the only item of the next outer one.
const DEEPEST: &[u8] =
    b"\xc0\x5c\x01\xc0\x59\x01\xc0\x56\x01\xc0\x53\x01\xc0\x50\x01\xc0\x4d\x01\xc0\x4a\x01\xc0\x47\x01\xc0\x44\x01\xc0\x41\x01\xc0\x3e\x01\xc0\x3b\x01\
    \xc0\x38\x01\xc0\x35\x01\xc0\x32\x01\xc0\x2f\x01\xc0\x2c\x01\xc0\x29\x01\xc0\x26\x01\xc0\x23\x01\xc0\x20\x01\xc0\x1d\x01\xc0\x1a\x01\xc0\x17\x01\
    \xc0\x14\x01\xc0\x11\x01\xc0\x0e\x01\xc0\x0b\x01\xc0\x08\x01\xc0\x05\x01\xc0\x02\x01\x45";

/// 33 of them.
const TOO_DEEP: &[u8] =
    b"\xc0\x5f\x01\xc0\x5c\x01\xc0\x59\x01\xc0\x56\x01\xc0\x53\x01\xc0\x50\x01\xc0\x4d\x01\xc0\x4a\x01\xc0\x47\x01\xc0\x44\x01\xc0\x41\x01\xc0\x3e\x01\
    \xc0\x3b\x01\xc0\x38\x01\xc0\x35\x01\xc0\x32\x01\xc0\x2f\x01\xc0\x2c\x01\xc0\x29\x01\xc0\x26\x01\xc0\x23\x01\xc0\x20\x01\xc0\x1d\x01\xc0\x1a\x01\
    \xc0\x17\x01\xc0\x14\x01\xc0\x11\x01\xc0\x0e\x01\xc0\x0b\x01\xc0\x08\x01\xc0\x05\x01\xc0\x02\x01\x45";

/// So many values, and their canonical spellings.
const VALUES: &[(u8, &[u8], &[u8])] = &[
    (28, LEAVES, LEAVES),
    (6, PARTS, PARTS),
    // longer spellings, and the canonical ones
    (
        7,
        b"\x56\x01\x56\x00\x70\x00\x00\x00\x00\x71\xff\xff\xff\xff\
            \x81\xff\xff\xff\xff\xff\xff\xff\x80\xd0\x00\x00\x00\x04\x00\x00\x00\x00\xe0\x01\x00",
        b"\x41\x42\x43\x54\xff\x55\x80\x45\xe0\x02\x00\x40",
    ),
    (1, DEEPEST, DEEPEST),
];

/// What stands in front of 256 octets, alone and in a list, a map and an array: each size takes four.
const LONG: &[&[u8]] = &[
    b"\xb0\x00\x00\x01\x00",
    b"\xd0\x00\x00\x01\x09\x00\x00\x00\x01\xb0\x00\x00\x01\x00",
    b"\xd1\x00\x00\x01\x0a\x00\x00\x00\x02\x43\xb0\x00\x00\x01\x00",
    b"\xf0\x00\x00\x01\x09\x00\x00\x00\x01\xb0\x00\x00\x01\x00",
];

fn is_long_behind(octets: &mut Vec<u8>, head: &[u8]) -> bool {
    octets.extend_from_slice(head).is_ok()
        && octets.resize(octets.len().saturating_add(256), 7).is_ok()
}

fn are_long_again(alloc: Global) -> bool {
    let mut octets = Vec::new(alloc);
    let mut count = 0u8;
    for head in LONG {
        if is_long_behind(&mut octets, head) {
            count = count.wrapping_add(1);
        }
    }
    count == 4 && are_again(alloc, 4, &octets, &octets)
}

#[test]
fn values(rt: HostRuntime) {
    for (count, octets, canonical) in VALUES {
        assert!(rt; are_again(rt.alloc(), *count, octets, canonical));
    }
    assert!(rt; are_long_again(rt.alloc()));
}

/// What is no value.
const REFUSED: &[&[u8]] = &[
    &[],
    &[0xa1, 3, 0x61],
    &[0x56, 2],
    &[0xc0, 5, 2, 0x52, 1, 0x41, 0x40],
    // A list, a map and an array that tell some 2^32 items, and have none, one or two: no want of memory where so much is refused.
    b"\xd0\x00\x00\x00\x04\xff\xff\xff\xff",
    b"\xd0\x00\x00\x00\x06\xff\xff\xff\xff\x40\x40",
    b"\xd1\x00\x00\x00\x04\xff\xff\xff\xfe",
    b"\xd1\x00\x00\x00\x06\xff\xff\xff\xfe\x40\x40",
    b"\xf0\x00\x00\x00\x04\xff\xff\xff\xff",
    b"\xf0\x00\x00\x00\x06\xff\xff\xff\xff\x50\x01",
    TOO_DEEP,
];

fn is_refused(alloc: Global, octets: &[u8]) -> bool {
    match read_value(alloc, octets) {
        Ok(_) => false,
        Err(fault) => fault == ReadFault::NoValue,
    }
}

#[test]
fn faults(rt: HostRuntime) {
    for octets in REFUSED {
        assert!(rt; is_refused(rt.alloc(), octets));
    }
}

/// Whether the value in front is equal to this one.
fn is_equal(alloc: Global, value: &Value, octets: &[u8]) -> Option<bool> {
    match read_within(alloc, 2, octets) {
        Ok((other, _)) => {
            let equal = *value == other;
            drop(other);
            Some(equal)
        }
        Err(_) => None,
    }
}

/// Whether the values in front are equal, however they are spelled.
fn are_equal(alloc: Global, octets: &[u8], others: &[u8]) -> Option<bool> {
    match read_within(alloc, 2, octets) {
        Ok((value, _)) => {
            let answer = is_equal(alloc, &value, others);
            drop(value);
            answer
        }
        Err(_) => None,
    }
}

const LIST: &[u8] = b"\xc0\x04\x02\x52\x01\x41";

const EQUAL: &[(&[u8], &[u8], bool)] = &[
    (
        LIST,
        b"\xd0\x00\x00\x00\x0b\x00\x00\x00\x02\x70\x00\x00\x00\x01\x56\x01",
        true,
    ),
    (LIST, b"\xc0\x04\x02\x52\x01\x42", false),
    (b"\x52\x01", b"\x53\x01", false),
];

#[test]
fn equal_values(rt: HostRuntime) {
    for (octets, others, equal) in EQUAL {
        assert!(rt; are_equal(rt.alloc(), octets, others) == Some(*equal));
    }
}

// Texts, boxes, lists and tags: made, copied and looked at.

fn is_copied(text: &Text, other: &Text) -> bool {
    match text.clone() {
        Ok(copy) => {
            let is_same = copy == *text && copy.as_str() == "q" && copy != *other;
            drop(copy);
            is_same
        }
        Err(_) => false,
    }
}

/// Whether a copy of a text is equal to it, and another text is not.
fn is_text_copied(alloc: Global) -> bool {
    let Ok(text) = Text::new(alloc, "q") else {
        return false;
    };
    match Text::new(alloc, "p") {
        Ok(other) => is_copied(&text, &other),
        Err(_) => false,
    }
}

fn is_box_copied(alloc: Global) -> Result<bool, AllocError> {
    let boxed = Boxed::new(alloc, 7u32)?;
    let copy = boxed.clone()?;
    Ok(copy == boxed && copy.into_inner() == 7)
}

fn are_two(copy: &Items<u32>, items: &Items<u32>) -> bool {
    copy == items && copy.iter().copied().max() == Some(3) && copy.len() == 2
}

fn is_list_copied(alloc: Global) -> bool {
    let mut items = Items::new(alloc);
    let are_there = items.push(2u32).is_ok() & items.push(3).is_ok();
    match items.clone() {
        Ok(copy) => {
            let is_same = are_two(&copy, &items);
            drop(copy);
            is_same && are_there
        }
        Err(_) => false,
    }
}

fn is_tag_shown(alloc: Global) -> bool {
    let Some(tag) = Tag::new(&[1, 0xab]) else {
        return false;
    };
    match format!(in alloc; "{tag:?}") {
        Ok(text) => text.as_str() == "01ab",
        Err(_) => false,
    }
}

fn are_tags() -> bool {
    Tag::new(&[1; 32]).is_some()
        && Tag::new(&[1; 33]).is_none()
        && Tag::new(&[1, 2]) == Tag::new(&[1, 2])
        && Tag::new(&[1, 0]) != Tag::new(&[1])
}

#[test]
fn texts_boxes_lists_and_tags(rt: HostRuntime) {
    assert!(rt; is_text_copied(rt.alloc()));
    assert!(rt; is_box_copied(rt.alloc()) == Ok(true));
    assert!(rt; is_list_copied(rt.alloc()));
    assert!(rt; are_tags() && is_tag_shown(rt.alloc()));
}

// Fields of one type, read in place.

fn are_read() -> bool {
    read_null(&[0x40, 9]) == Some(1)
        && read_boolean(&[0x56, 1]) == Some((true, 2))
        && read_ubyte(&[0x50, 7]) == Some((7, 2))
        && read_ushort(&[0x60, 1, 2]) == Some((258, 3))
        && read_ulong(&[0x80, 0, 0, 0, 0, 0, 0, 1, 0]) == Some((256, 9))
}

const UINTS: &[(&[u8], Option<(u32, usize)>)] = &[
    (&[0x43, 9, 9, 9, 9], Some((0, 1))),
    (&[0x52, 0xff, 9, 9, 9], Some((255, 2))),
    (&[0x70, 0, 0, 1, 0], Some((256, 5))),
    (&[0x53, 1, 9, 9, 9], None),
];

fn are_runs() -> bool {
    matches!(read_binary(&[0xa0, 1, 9]), Some((_, 3)))
        && matches!(read_string(&[0xa1, 2, 0xc3, 0xa9]), Some((_, 4)))
        && read_string(&[0xa1, 1, 0xff]).is_none()
        && matches!(read_symbol(&[0xa3, 1, 0x61]), Some((_, 3)))
        && read_symbol(&[0xa3, 1, 0x80]).is_none()
}

fn are_heads() -> bool {
    let list = &[0xc0, 4, 2, 0x52, 1, 0x41, 9];
    let head = ListHead {
        count: 2,
        start: 3,
        end: 6,
    };
    skip_value(list) == Some(6)
        && skip_within(1, list) == None
        && read_list_head(list) == Some(head)
        && matches!(read_descriptor(&[0, 0x53, 0x24, 0x45]), Some((_, 3)))
}

#[test]
fn fields(rt: HostRuntime) {
    assert!(rt; are_read() && are_runs() && are_heads());
    for (octets, found) in UINTS {
        assert!(rt; read_uint(octets) == *found);
    }
}

// Fields of one type, written behind one another.
fn are_fields_written(out: &mut Vec<u8>) -> bool {
    write_null(out).is_ok()
        && write_boolean(out, true).is_ok()
        && write_ubyte(out, 7).is_ok()
        && write_ushort(out, 258).is_ok()
        && write_uint(out, 255).is_ok()
        && write_ulong(out, 36).is_ok()
}

// Each length of a number.
fn are_numbers_written(out: &mut Vec<u8>) -> bool {
    for n in [0, 255, 256] {
        if write_uint(out, n).is_err() || write_ulong(out, u64::from(n)).is_err() {
            return false;
        }
    }
    write_boolean(out, false).is_ok()
}

// A value and a map, written in place.
fn are_appended(out: &mut Vec<u8>) -> bool {
    append_value(&Value::Uint(1), out).is_ok()
        && append_map(&[(Value::Uint(2), Value::Null)], out).is_ok()
}

/// What is written, and which octets are due.
enum Written {
    Fields,
    Numbers,
    Appended,
}

const WRITTEN: &[(Written, &[u8])] = &[
    (
        Written::Fields,
        b"\x40\x41\x50\x07\x60\x01\x02\x52\xff\x53\x24",
    ),
    (
        Written::Numbers,
        b"\x43\x44\x52\xff\x53\xff\x70\x00\x00\x01\x00\x80\x00\x00\x00\x00\x00\x00\x01\x00\x42",
    ),
    (Written::Appended, b"\x52\x01\xc1\x04\x02\x52\x02\x40"),
];

fn is_written(alloc: Global, written: &Written, octets: &[u8]) -> bool {
    let mut out = Vec::new(alloc);
    let is_there = match written {
        Written::Fields => are_fields_written(&mut out),
        Written::Numbers => are_numbers_written(&mut out),
        Written::Appended => are_appended(&mut out),
    };
    is_there && out.as_slice() == octets
}

fn are_sizes() -> bool {
    for (n, size) in [(0, 1), (36, 2), (255, 2)] {
        if uint_size(n) != size || ulong_size(u64::from(n)) != size {
            return false;
        }
    }
    uint_size(256) == 5 && ulong_size(256) == 9 && value_size(&Value::Uint(255)) == Some(2)
}

#[test]
fn written_fields(rt: HostRuntime) {
    for (written, octets) in WRITTEN {
        assert!(rt; is_written(rt.alloc(), written, octets));
    }
    assert!(rt; are_sizes());
}

fn is_not_writable(alloc: Global, value: Value) -> bool {
    let mut out = Vec::new(alloc);
    let answer = write_value(&value, &mut out);
    drop(value);
    answer == Err(WriteFault::NotWritable) && out.is_empty()
}

/// An array whose code is of another element; one without elements, which is written, where memory is refused.
fn array_of_others(alloc: Global) -> Value {
    let mut items = Items::new(alloc);
    let _is_there = items.push(Value::Uint(300)).is_ok();
    Value::Array(0x52, items)
}

fn is_symbol_not_writable(alloc: Global) -> bool {
    match Text::new(alloc, "\u{e9}") {
        Ok(text) => is_not_writable(alloc, Value::Symbol(text)),
        Err(_) => false,
    }
}

/// A list of the value; one without items where memory is refused.
fn listed(alloc: Global, value: Value) -> Value {
    let mut items = Items::new(alloc);
    let _is_there = items.push(value).is_ok();
    Value::List(items)
}

/// 33 lists, each the only item of the next outer one.
fn too_deep(alloc: Global) -> Value {
    let mut value = Value::List(Items::new(alloc));
    for _ in 0..32 {
        value = listed(alloc, value);
    }
    value
}

#[test]
fn what_is_not_writable(rt: HostRuntime) {
    assert!(rt; is_not_writable(rt.alloc(), array_of_others(rt.alloc())));
    assert!(rt; is_symbol_not_writable(rt.alloc()));
    assert!(rt; is_not_writable(rt.alloc(), too_deep(rt.alloc())));
}
