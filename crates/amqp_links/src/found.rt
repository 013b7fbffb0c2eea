//! A link that was found.
use crate::link::Link;

/// A link and the key under which it stands.
#[derive(Clone, Copy)]
pub struct Found<'a> {
    pub key: usize,
    pub link: &'a Link,
}
