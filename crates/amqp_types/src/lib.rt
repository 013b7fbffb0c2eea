//! Reads and writes the values of AMQP 1.0 (OASIS AMQP 1.0, part 1, sections 1.2 and 1.6).
//!
//! A value is encoded as a format code and a body. The high half of the code determines the shape of the body: 4 is
//! none; 5 to 9 are one, two, four, eight and sixteen octets; a and b are a size of one or four octets and as many
//! octets; c and d are size, count and items; e and f are size, count, one format code and the bodies of that code.
//! Code 00 precedes a descriptor and the value that it describes.
//!
//! | type | codes | body |
//! |---|---|---|
//! | null | 40 | none |
//! | boolean | 56; 41 true, 42 false | 56: 00 or 01 |
//! | ubyte, ushort | 50, 60 | unsigned, big endian as all numbers |
//! | uint, ulong | 70, 80; 52, 53 one octet; 43, 44 zero | unsigned |
//! | byte, short | 51, 61 | two's complement |
//! | int, long | 71, 81; 54, 55 one octet | two's complement |
//! | float, double, decimal32, decimal64, decimal128 | 72, 82, 74, 84, 94 | kept as bits |
//! | char | 73 | a Unicode scalar value |
//! | timestamp | 83 | milliseconds, two's complement |
//! | uuid | 98 | sixteen octets |
//! | binary, string, symbol | a0 b0, a1 b1, a3 b3 | octets; UTF-8; octets below 128 |
//! | list, map | c0 d0, c1 d1; 45 an empty list | items; keys and values in turn |
//! | array | e0, f0 | one code of the table but 00, and bodies; at most 255 items if they have no body |
//!
//! Values are nested at most 32 deep ([`MAX_DEPTH`]). The reader accepts every encoding. The writer uses the canonical
//! encoding, in which each part has its shortest code.
//!
//! | module | contents |
//! |---|---|
//! | `value`, `text`, `tag` | values |
//! | `items`, `boxed` | owners of a value's parts, which contracts see as the parts themselves |
//! | `class`, `forms`, `leaves`, `parts` | codes; one level of a value; values without parts; values with parts |
//! | `read`, `skip`, `write` | whole values: read, skipped, written |
//! | `fields`, `append`, `heads`, `within` | fields of one type, read and written; heads; values inside others |
//! | `equality`, `fault` | the meaning of `==` in contracts; errors |
//!
//! - [`Value`], [`Text`], [`Items`], [`Boxed`], [`Tag`]: values, which contracts see as plain data.
//! - [`read_value`], [`read_within`], [`skip_value`], [`skip_within`], [`write_value`], [`value_size`]: whole values.
//! - [`read_uint`], [`write_uint`] and the functions for the other types, [`read_list_head`], [`read_descriptor`],
//!   [`uint_size`], [`ulong_size`]: fields of one type.
//! - [`one_spelling`], [`canon_spells`], [`read_back`], [`canon_is_shortest`]: the laws of encodings.
//! - [`size_within`], [`map_size_within`], [`append_value`], [`append_map`], [`is_symbol`], [`class_of`],
//!   [`read_number`], [`fits`], [`is_element`], [`is_even`]: parts for readers and writers of larger structures.
//! - [`equal_is_same`]: `==` of values, texts and tags is `≡` in contracts.
#![tactic(auto)]

mod append;
mod boxed;
mod class;
mod equality;
mod fault;
mod fields;
mod forms;
mod heads;
mod items;
mod leaves;
mod parts;
mod read;
mod skip;
mod tag;
mod text;
mod value;
mod within;
mod write;

pub use append::{
    uint_size, ulong_size, write_boolean, write_null, write_ubyte, write_uint, write_ulong,
    write_ushort,
};
pub use boxed::Boxed;
pub use class::{Class, Conversion, Kind, Run, Width, class_of};
pub use equality::equal_is_same;
pub use fault::{ReadFault, WriteFault};
pub use fields::{
    read_binary, read_boolean, read_null, read_string, read_symbol, read_ubyte, read_uint,
    read_ulong, read_ushort,
};
pub use heads::{Descriptor, ListHead, read_descriptor, read_list_head};
pub use items::Items;
pub use leaves::{fits, read_number};
pub use parts::{is_element, is_even};
pub use read::{one_spelling, read_value, read_within};
pub use skip::{skip_value, skip_within};
pub use tag::Tag;
pub use text::Text;
pub use value::{MAX_DEPTH, Value};
pub use within::{append_map, append_value, is_symbol, map_size_within, size_within};
pub use write::{canon_is_shortest, canon_spells, read_back, value_size, write_value};
