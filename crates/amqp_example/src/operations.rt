//! The operations that the examples do.

use amqp_conn::{Bytes, Op, Role, Tag, Text, ops};
use std::alloc::{AllocError, Global};

/// A link of this name, without addresses.
pub fn attach(alloc: Global, name: &str, role: Role) -> Result<Op, AllocError> {
    Ok(ops::attach(Text::new(alloc, name)?, role, None, None))
}

/// A message of five octets, whole. Octets of the program's own take no memory.
pub fn start(link: u32, tag: u8) -> Op {
    ops::start(link, tag_of(tag), Bytes::from_static(b"hello"))
}

/// The tag of one octet.
pub fn tag_of(octet: u8) -> Tag {
    let mut tag = Tag::empty();
    tag.set(&[octet]);
    tag
}
