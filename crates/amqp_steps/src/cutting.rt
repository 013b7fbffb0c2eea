//! Octets of short frames, cut out of blocks that many frames share.
ghost use Rattle.std.specs.Prelude.{◌≡◌, [], IfOk, OnOk};

use bytes::{Bytes, BytesMut};
use std::alloc::{AllocError, Global};

/// How many octets a block holds, where one frame's are no more.
const BLOCK: usize = 4096;

/// Where a frame's octets are made, and a block to cut them out of: a short frame so asks for no memory of its own.
pub struct Cutter {
    alloc: Global,
    /// The octets of the frame that is made.
    pub(crate) draft: Vec<u8>,
    /// What is left of the block.
    block: BytesMut,
}

// By hand, so that a crate that owns one does not prove its parts' drops again.
impl Drop for Cutter {
    fn drop(self) {
        let Cutter {
            alloc: _,
            draft,
            block,
        } = self;
        drop(draft);
        drop(block);
    }
}

impl Cutter {
    /// It takes no memory before the first frame.
    pub fn new(alloc: Global) -> Cutter {
        Cutter {
            alloc,
            draft: Vec::new(alloc),
            block: BytesMut::new(alloc),
        }
    }

    /// An empty block with room for the draft.
    #[inline(always)]
    fn make_room(&mut self) -> Result<(), AllocError>
        ensures draft { self.new.draft ≡ self.old.draft }
        ensures block { OnOk result (self.new.block.items ≡ []) }
    {
        let len = self.draft.len();
        if len <= self.block.capacity() {
            self.block.clear();
            return Ok(());
        }
        self.block = BytesMut::with_capacity(self.alloc, len.max(BLOCK))?;
        Ok(())
    }

    /// The octets of the draft.
    #[inline(always)]
    pub(crate) fn cut(&mut self) -> Result<Bytes, AllocError>
        ensures { IfOk result (λ octets. octets ≡ self.old.draft.items) }
    {
        self.make_room()?;
        self.block.extend_from_slice(self.draft.as_slice())?;
        self.block.freeze_to(self.draft.len())
    }
}
