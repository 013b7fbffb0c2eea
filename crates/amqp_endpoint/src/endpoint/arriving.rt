//! A transfer that comes: what it begins or carries on, and what it leaves (part 2, 2.6.12 and 2.6.14).
ghost use Rattle.std.specs.Prelude.{◌≡◌, ◌<◌, ◌^◌, List, ℕ, true, false, None, unwrap_or, IfOk, OnErr};
ghost use Rattle.amqp_steps.specs.Arriving.{arriving_plan, passed_plan, HasCome, IsHeard, MayCome, PlansTransfer};
ghost use Rattle.amqp_steps.specs.Plan.{IsSound, KeepsApart, plan_reply, planned};
ghost use Rattle.amqp_links.specs.Arrivals.{IsProgress};

use crate::endpoint::Endpoint;
use crate::reply::{Given, Reply};
use amqp_frames::{Role, TransferBody};
use amqp_links::arrival::Progress;
use amqp_links::link::Link;
use amqp_performatives::copying::copy_state;
use amqp_steps::arriving::{
    Arriving, arrived_done, begins_unsettled, brought_in, change_of, is_resumed, item_of,
    marks_first, one_past, passed_expected, piece_of, pieces, session_heard, session_passed,
};
use amqp_steps::done::{Done, quiet_done};
use amqp_types::Items;
use bytes::Bytes;
use std::alloc::AllocError;

impl Endpoint {
    /// A transfer on a link that we have left is passed over: the id that is expected next.
    pub(crate) fn make_passed(&self, b: &TransferBody, l: &Link, payload: &Bytes) -> Option<u32>
        requires heard { IsHeard self.now b.now payload.now l.now }
        requires left { l.now.left ≡ true }
        ensures { PlansTransfer self.now b.now payload.now (passed_plan self.now result) }
    {
        let _left = l.has_left();
        let _size = payload.len();
        passed_expected(b.delivery_id, self.session.expected)
    }

    /// The first transfer of a delivery.
    pub(crate) fn make_first(
        &self,
        b: &TransferBody,
        key: usize,
        l: &Link,
        payload: &Bytes,
    ) -> Arriving
        requires heard { IsHeard self.now b.now payload.now l.now }
        requires left { l.now.left ≡ false }
        requires none { l.now.receiving ≡ None }
        ensures { PlansTransfer self.now b.now payload.now (arriving_plan self.now b.now payload.now result) }
    {
        let _session = &self.session;
        let _size = payload.len();
        let id = b.delivery_id.unwrap_or(0);
        Arriving {
            key,
            number: l.number(),
            mode: l.rcv_mode(),
            first: true,
            begins: begins_unsettled(l, b),
            resumed: is_resumed(b),
            id,
            expected: one_past(id),
            marks: marks_first(l),
        }
    }

    /// A further transfer of the unfinished delivery.
    pub(crate) fn make_later(
        &self,
        b: &TransferBody,
        key: usize,
        l: &Link,
        progress: Progress,
        payload: &Bytes,
    ) -> Arriving
        requires heard { IsHeard self.now b.now payload.now l.now }
        requires left { l.now.left ≡ false }
        requires going { IsProgress l.now.receiving progress }
        ensures { PlansTransfer self.now b.now payload.now (arriving_plan self.now b.now payload.now result) }
    {
        let _handle = b.handle;
        let _size = payload.len();
        Arriving {
            key,
            number: l.number(),
            mode: l.rcv_mode(),
            first: false,
            begins: false,
            resumed: progress.resumed,
            id: progress.id,
            expected: self.session.expected,
            marks: l.marks(),
        }
    }

    /// The transfer is passed over.
    pub(crate) fn pass(&mut self, expected: Option<u32>) -> Done
        requires steps { self.old.steps < 2 ^ 30 }
        requires window { 0 < self.old.windows.incoming }
        requires sound { IsSound self.old (passed_plan self.old expected) }
        requires apart { KeepsApart self.old (planned self.old (passed_plan self.old expected)) }
        ensures done { result ≡ record { reply = plan_reply (passed_plan self.old expected) self.old; octets = None; given = Given.Nothing } }
        ensures next { self.new ≡ planned self.old (passed_plan self.old expected) }
    {
        let session = session_passed(self.session, expected);
        self.steps += 1;
        self.session = session;
        quiet_done(self.alloc, Given::Nothing, Given::Nothing)
    }

    /// The transfer comes.
    pub(crate) fn come(
        &mut self,
        b: &TransferBody,
        payload: &Bytes,
        arriving: &Arriving,
    ) -> Result<Done, AllocError>
        requires may { MayCome self.old b.now payload.now arriving.now }
        ensures has { IfOk result (HasCome self.old self.new b.now payload.now arriving.now) }
        ensures err { OnErr result (self.new ≡ self.old) }
    {
        if !arriving.begins {
            return self.come_on(b, payload, arriving);
        }
        if is_resumed(b) {
            return self.come_back(b, payload, arriving);
        }
        self.come_first(b, payload, arriving)
    }

    /// The transfer comes, and an unsettled delivery begins.
    fn come_first(
        &mut self,
        b: &TransferBody,
        payload: &Bytes,
        arriving: &Arriving,
    ) -> Result<Done, AllocError>
        requires begins { arriving.now.begins ≡ true }
        requires fresh { unwrap_or b.now.resume false ≡ false }
        requires may { MayCome self.old b.now payload.now arriving.now }
        ensures has { IfOk result (HasCome self.old self.new b.now payload.now arriving.now) }
        ensures err { OnErr result (self.new ≡ self.old) }
    {
        let payload = payload.clone()?;
        let state = copy_state(&b.state)?;
        let piece = piece_of(arriving.mode, b, payload);
        let item = item_of(arriving.number, arriving.mode, b, state);
        match self.stores.arrive_first(
            arriving.key,
            arriving.number,
            &arriving.marks,
            piece,
            Role::Receiver,
            item,
        ) {
            Ok(()) => {}
            Err(e) => return Err(e),
        }
        self.steps += 1;
        self.session = session_heard(self.session, arriving.expected);
        let ended = Items::new(self.alloc);
        Ok(arrived_done(self.alloc, b, arriving, ended))
    }

    /// The transfer comes, and brings a delivery in that waits: it begins unsettled, with our state.
    fn come_back(
        &mut self,
        b: &TransferBody,
        payload: &Bytes,
        arriving: &Arriving,
    ) -> Result<Done, AllocError>
        requires begins { arriving.now.begins ≡ true }
        requires back { unwrap_or b.now.resume false ≡ true }
        requires may { MayCome self.old b.now payload.now arriving.now }
        ensures has { IfOk result (HasCome self.old self.new b.now payload.now arriving.now) }
        ensures err { OnErr result (self.new ≡ self.old) }
    {
        let payload = payload.clone()?;
        let (piece, item) = brought_in(&self.stores, b, payload, arriving)?;
        match self.stores.arrive_first(
            arriving.key,
            arriving.number,
            &arriving.marks,
            piece,
            Role::Receiver,
            item,
        ) {
            Ok(()) => {}
            Err(e) => return Err(e),
        }
        self.steps += 1;
        self.session = session_heard(self.session, arriving.expected);
        let ended = Items::new(self.alloc);
        Ok(arrived_done(self.alloc, b, arriving, ended))
    }

    /// The transfer comes, and no unsettled delivery begins.
    fn come_on(
        &mut self,
        b: &TransferBody,
        payload: &Bytes,
        arriving: &Arriving,
    ) -> Result<Done, AllocError>
        requires none { arriving.now.begins ≡ false }
        requires may { MayCome self.old b.now payload.now arriving.now }
        ensures has { IfOk result (HasCome self.old self.new b.now payload.now arriving.now) }
        ensures err { OnErr result (self.new ≡ self.old) }
    {
        let change = change_of(b, arriving)?;
        let (ended, piece) = match pieces(&self.stores, b, payload, arriving, &change) {
            Ok(both) => both,
            Err(e) => {
                drop(change);
                return Err(e);
            }
        };
        match self.stores.arrive(
            arriving.key,
            arriving.number,
            &arriving.marks,
            piece,
            change,
        ) {
            Ok(()) => {}
            Err(e) => {
                drop(ended);
                return Err(e);
            }
        }
        self.steps += 1;
        self.session = session_heard(self.session, arriving.expected);
        Ok(arrived_done(self.alloc, b, arriving, ended))
    }

    /// What a transfer would give that comes.
    pub(crate) fn arrived_reply(
        &self,
        b: &TransferBody,
        arriving: &Arriving,
    ) -> Result<Reply, AllocError>
        ensures { (payload : List ℕ) → IfOk result (λ r. r ≡ plan_reply (arriving_plan self.now b.now payload arriving.now) self.now) }
    {
        if arriving.begins {
            let ended = Items::new(self.alloc);
            return Ok(arrived_done(self.alloc, b, arriving, ended).once().0);
        }
        let change = change_of(b, arriving)?;
        let ended = self.stores.tables.ended(&change);
        drop(change);
        Ok(arrived_done(self.alloc, b, arriving, ended?).once().0)
    }
}
