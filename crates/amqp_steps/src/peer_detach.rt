//! A link that the peer leaves (part 2, 2.6.4, 2.6.6 and 2.7.7).
use amqp_links::link::Link;

/// A link that the peer leaves: it, where it is, its number, our handle of it, and whether it is attached.
#[derive(Clone, Copy)]
pub struct Parting<'a> {
    pub link: &'a Link,
    pub key: usize,
    pub number: u32,
    pub handle: u32,
    pub attached: bool,
}
