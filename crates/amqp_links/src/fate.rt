//! What becomes of the links in a step, as data.
use crate::arrival::Piece;
use crate::end::End;
use crate::marks::Marks;
use crate::resuming::Resuming;
use amqp_types::{Tag, Text};

/// What becomes of the links. A link is told by its number, and by the key where it was found.
#[derive(Drop)]
pub enum Fate {
    /// They stay as they are.
    Stay,
    /// The link has these marks.
    Marked {
        key: usize,
        number: u32,
        marks: Marks,
    },
    /// Our attach of the link was sent; it has this to resume.
    Ours {
        key: usize,
        number: u32,
        end: End,
        marks: Marks,
        resuming: Resuming,
    },
    /// The peer's attach of the link was heard; it has this to resume.
    Theirs {
        key: usize,
        number: u32,
        end: End,
        marks: Marks,
        resuming: Resuming,
    },
    /// We ask for a link, which has this to resume.
    Asked {
        name: Text,
        end: End,
        marks: Marks,
        resuming: Resuming,
    },
    /// The peer offers a link, which has this to resume.
    Offered {
        name: Text,
        end: End,
        marks: Marks,
        resuming: Resuming,
    },
    /// Our detach of the link was sent.
    Left {
        key: usize,
        number: u32,
    },
    /// The first delivery that waits on the link is taken.
    Taken {
        key: usize,
        number: u32,
    },
    /// The first thing that was told of the link's deliveries is learnt.
    Learnt {
        key: usize,
        number: u32,
    },
    /// A transfer was heard on the link, which has these marks.
    Heard {
        key: usize,
        number: u32,
        marks: Marks,
        piece: Piece,
    },
    /// The delivery with this tag is resumed: it waits no longer on the link, which has these marks.
    Resumed {
        key: usize,
        number: u32,
        marks: Marks,
        tag: Tag,
    },
    /// The link is gone.
    Gone {
        key: usize,
        number: u32,
    },
    /// All links are gone.
    AllGone,
}
