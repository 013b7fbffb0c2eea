//! What a step would leave of the links that it makes gone, behind a list: it is asked before the step, and changes no endpoint.
ghost use Rattle.std.specs.Prelude.{◌≡◌, ◌++◌, OnOk, OnErr};
ghost use Rattle.amqp_endpoint.specs.Left.{left_by_heard, left_by_own};
ghost use Rattle.amqp_links.specs.Left.{left_on_all, left_on_found};
ghost use Rattle.amqp_rules.specs.View.{has_peer_handle};
ghost use Rattle.std.specs.Prelude.{find};

use crate::endpoint::Endpoint;
use crate::op::Op;
use amqp_frames::{Frame, Performative};
use amqp_links::left::Left;
use std::alloc::AllocError;
use std::collections::VecDeque;

impl Endpoint {
    /// What all links have ready and told goes behind the list.
    #[inline(never)]
    pub fn leave_all(&self, left: &mut VecDeque<Left>) -> Result<(), AllocError>
        ensures ok { OnOk result (left.new.items ≡ left.old.items ++ left_on_all self.now.links) }
        ensures err { OnErr result (left.new.items ≡ left.old.items) }
    {
        let mut more = self.stores.links.left_by_all()?;
        left.append(&mut more)
    }

    /// The same of the link that the peer calls by this handle.
    #[inline(never)]
    fn leave_one(&self, handle: u32, left: &mut VecDeque<Left>) -> Result<(), AllocError>
        ensures ok { OnOk result (left.new.items ≡ left.old.items ++ left_on_found (find (has_peer_handle handle) self.now.links)) }
        ensures err { OnErr result (left.new.items ≡ left.old.items) }
    {
        let mut more = self.stores.links.left_by(handle)?;
        left.append(&mut more)
    }

    /// What the operation leaves, where it is done.
    pub fn leave_by_own(&self, op: &Op, left: &mut VecDeque<Left>) -> Result<(), AllocError>
        ensures ok { OnOk result (left.new.items ≡ left.old.items ++ left_by_own self.now op.now) }
        ensures err { OnErr result (left.new.items ≡ left.old.items) }
    {
        match op {
            Op::End { .. } => self.leave_all(left),
            _ => Ok(()),
        }
    }

    /// What a frame that is heard leaves, where it is taken.
    pub fn leave_by_heard(&self, frame: &Frame, left: &mut VecDeque<Left>) -> Result<(), AllocError>
        ensures ok { OnOk result (left.new.items ≡ left.old.items ++ left_by_heard self.now frame.now.body) }
        ensures err { OnErr result (left.new.items ≡ left.old.items) }
    {
        match &frame.body {
            Some(Performative::Detach(body)) => self.leave_one(body.handle, left),
            Some(Performative::End(_)) => self.leave_all(left),
            _ => Ok(()),
        }
    }
}
