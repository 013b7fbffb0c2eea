//! A transfer that is heard, and the deliveries that it begins, goes on with or completes.
ghost use Rattle.std.specs.Prelude.{◌≡◌, ◌||◌, ◌↔◌, Some, None, MatchOption, IfOk, OnOk, OnErr, IsTrue, false, true};
ghost use Rattle.amqp_events.specs.Joined.{unless_resumed};
ghost use Rattle.amqp_links.specs.Fate.{with_heard};
ghost use Rattle.amqp_links.specs.Arrivals.{completed_as, goes_on_with, opened_after, opened_by, with_joined, with_piece, IsProgress, IsProgressOf, IsWhole};

use crate::link::Link;
use crate::marks::Marks;
use amqp_deliveries::{Partial, Parts};
use amqp_types::Tag;
use bytes::Bytes;
use std::alloc::{AllocError, Global};
use std::marker::Model;

/// A transfer that is heard on a link (part 2, 2.7.5). A later transfer of a delivery says nothing new by its id, tag, format and mode.
#[derive(Drop)]
pub struct Piece {
    pub id: u32,
    pub tag: Tag,
    pub format: u32,
    pub second: bool,
    pub settled: bool,
    pub more: bool,
    pub aborted: bool,
    /// As a first transfer it brings in a delivery that was put aside (part 2, 2.6.13).
    pub resumed: bool,
    pub payload: Bytes,
}

impl Model for Piece {
    ghost use Rattle.amqp_events.specs.Joined.{Transferred};

    ghost Value = { Transferred };

    ghost view = { λ p. record { id = p.id; tag = p.tag; format = p.format; second = p.second; settled = p.settled; more = p.more; aborted = p.aborted; resumed = p.resumed; payload = p.payload } };
}

impl Piece {
    /// It is all of a delivery that is not brought in, where it is a first one.
    fn is_whole(&self) -> bool
        ensures { IsTrue result ↔ IsWhole self.now }
    {
        !self.more && !self.aborted && !self.resumed
    }
}

/// A delivery of the peer's that is unfinished.
#[derive(Drop)]
pub struct Unfinished {
    id: u32,
    tag: Tag,
    format: u32,
    second: bool,
    settled: bool,
    resumed: bool,
    parts: Partial,
    size: u128,
}

impl Model for Unfinished {
    ghost use Rattle.std.specs.List.{concat};
    ghost use Rattle.amqp_events.specs.Joined.{Delivery, Open};

    ghost Value = { Delivery };

    ghost view = { λ u. record { id = u.id; tag = u.tag; format = u.format; second = u.second; settled = u.settled; resumed = u.resumed; payload = concat u.parts; status = Open } };

    ghost use Rattle.std.specs.Prelude.{◌≡◌};
    ghost use Rattle.amqp_links.specs.Arrivals.{size_told};

    ghost invariant = { λ u. u.size ≡ size_told (concat u.parts) };
}

/// How far the unfinished delivery of the peer's has come.
#[derive(Clone, Copy)]
pub struct Progress {
    pub id: u32,
    /// A transfer of it said so.
    pub settled: bool,
    /// It was brought in.
    pub resumed: bool,
    /// How long its payloads are, in octets.
    pub size: u128,
}

/// A delivery of the peer's that waits to be taken.
#[derive(Drop)]
pub struct Waiting {
    id: u32,
    tag: Tag,
    format: u32,
    second: bool,
    settled: bool,
    parts: Parts,
}

impl Model for Waiting {
    ghost use Rattle.std.specs.Prelude.{false};
    ghost use Rattle.amqp_events.specs.Joined.{Delivery, Complete};

    ghost Value = { Delivery };

    ghost view = { λ u. record { id = u.id; tag = u.tag; format = u.format; second = u.second; settled = u.settled; resumed = false; payload = u.parts; status = Complete } };
}

impl Unfinished {
    /// The delivery that a first transfer begins, as it stands if more is to come.
    fn begin(alloc: Global, piece: Piece) -> Result<Unfinished, AllocError>
        requires { piece.aborted ≡ false }
        ensures { IfOk result (λ u. u ≡ opened_by piece) }
    {
        let payload = unless_resumed(piece.resumed, piece.payload);
        let size = payload.len() as u128;
        let mut parts = Partial::start(alloc);
        parts.append(payload)?;
        Ok(Unfinished {
            id: piece.id,
            tag: piece.tag,
            format: piece.format,
            second: piece.second,
            settled: piece.settled,
            resumed: piece.resumed,
            parts,
            size,
        })
    }

    /// A further transfer of it, as it stands if more is to come.
    fn go_on(&mut self, piece: Piece) -> Result<(), AllocError>
        requires { piece.aborted ≡ false }
        ensures ok { OnOk result (self.new ≡ goes_on_with piece self.old) }
        ensures err { OnErr result (self.new ≡ self.old) }
    {
        let settled = piece.settled;
        let payload = unless_resumed(self.resumed, piece.payload);
        let size = self.size.saturating_add(payload.len() as u128);
        self.parts.append(payload)?;
        self.settled = either(self.settled, settled);
        self.size = size;
        Ok(())
    }

    /// Its delivery-id.
    pub(crate) fn id(&self) -> u32
        ensures { result ≡ self.now.id }
    {
        self.id
    }

    /// How far it has come.
    fn progress(&self) -> Progress
        ensures { IsProgressOf self.now result }
    {
        Progress {
            id: self.id,
            settled: self.settled,
            resumed: self.resumed,
            size: self.size,
        }
    }

    /// It was brought in.
    fn is_resumed(&self) -> bool
        ensures { result ≡ self.now.resumed }
    {
        self.resumed
    }

    /// It is complete, and was not brought in.
    fn complete(mut self) -> Waiting
        requires { self.resumed ≡ false }
        ensures { result ≡ completed_as self }
    {
        Waiting {
            id: self.id,
            tag: self.tag,
            format: self.format,
            second: self.second,
            settled: self.settled,
            parts: self.parts.finish(),
        }
    }
}

impl Waiting {
    /// A delivery of one transfer, which was not brought in.
    fn whole(alloc: Global, piece: Piece) -> Waiting
        requires { piece.resumed ≡ false }
        ensures { result ≡ completed_as (opened_by piece) }
    {
        Waiting {
            id: piece.id,
            tag: piece.tag,
            format: piece.format,
            second: piece.second,
            settled: piece.settled,
            parts: Parts::one(alloc, piece.payload),
        }
    }

    /// Its delivery-id.
    pub fn id(&self) -> u32
        ensures { result ≡ self.now.id }
    {
        self.id
    }

    /// Its tag.
    pub fn tag(&self) -> &Tag
        ensures { result.now ≡ self.now.tag }
    {
        &self.tag
    }

    /// Its message-format.
    pub fn format(&self) -> u32
        ensures { result ≡ self.now.format }
    {
        self.format
    }

    /// Its receiver settles after the sender.
    pub fn is_second(&self) -> bool
        ensures { result ≡ self.now.second }
    {
        self.second
    }

    /// It came settled.
    pub fn is_settled(&self) -> bool
        ensures { result ≡ self.now.settled }
    {
        self.settled
    }

    /// Its payload, as the slices that came: they are shared, and not copied.
    pub fn payload(&self) -> Result<Parts, AllocError>
        ensures { IfOk result (λ p. p ≡ self.now.payload) }
    {
        self.parts.clone()
    }
}

fn either(a: bool, b: bool) -> bool
    ensures { result ≡ (a || b) }
{
    a || b
}

/// What a delivery that was brought in carries counts for nothing.
fn unless_resumed(resumed: bool, payload: Bytes) -> Bytes
    ensures { result ≡ unless_resumed resumed payload }
{
    if resumed {
        drop(payload);
        Bytes::new()
    } else {
        payload
    }
}

/// The transfer begins a delivery, or goes on with the unfinished one: as it stands if more is to come.
fn go_on(alloc: Global, receiving: &mut Option<Unfinished>, piece: Piece) -> Result<(), AllocError>
    requires { piece.aborted ≡ false }
    ensures ok { OnOk result (receiving.new ≡ Some (opened_after piece receiving.old)) }
    ensures err { OnErr result (receiving.new ≡ receiving.old) }
{
    match receiving {
        Some(unfinished) => unfinished.go_on(piece),
        None => {
            *receiving = Some(Unfinished::begin(alloc, piece)?);
            Ok(())
        }
    }
}

impl Link {
    /// How far the unfinished delivery of the peer's has come.
    pub fn progress(&self) -> Option<Progress>
        ensures { MatchOption result (self.now.receiving ≡ None) (IsProgress self.now.receiving) }
    {
        match &self.receiving {
            Some(unfinished) => Some(unfinished.progress()),
            None => None,
        }
    }

    /// A transfer begins a delivery on it, or goes on with the unfinished one.
    fn join(&mut self, piece: Piece) -> Result<(), AllocError>
        ensures ok { OnOk result (self.new ≡ with_joined piece self.old) }
        ensures err { OnErr result (self.new ≡ self.old) }
    {
        if piece.aborted {
            drop(piece);
            self.receiving = None;
            return Ok(());
        }
        let more = piece.more;
        self.ready.reserve(1)?;
        go_on(self.alloc, &mut self.receiving, piece)?;
        if more {
            return Ok(());
        }
        let Some(unfinished) = self.receiving.take() else {
            return Ok(());
        };
        if unfinished.is_resumed() {
            drop(unfinished);
            return Ok(());
        }
        self.ready.push_back_reserved(unfinished.complete());
        Ok(())
    }

    /// A first transfer brings a delivery in, which waits no longer.
    #[inline(never)]
    fn bring_in(&mut self, piece: Piece) -> Result<(), AllocError>
        requires resumed { piece.resumed ≡ true }
        requires first { self.old.receiving ≡ None }
        ensures ok { OnOk result (self.new ≡ with_piece piece self.old) }
        ensures err { OnErr result (self.new ≡ self.old) }
    {
        let tag = piece.tag;
        self.join(piece)?;
        self.resuming.remove(&tag);
        Ok(())
    }

    /// A delivery of one transfer is heard on it, as most are.
    fn receive_whole(&mut self, piece: Piece) -> Result<(), AllocError>
        requires whole { IsWhole piece }
        requires first { self.old.receiving ≡ None }
        ensures ok { OnOk result (self.new ≡ with_piece piece self.old) }
        ensures err { OnErr result (self.new ≡ self.old) }
    {
        self.ready.reserve(1)?;
        self.ready
            .push_back_reserved(Waiting::whole(self.alloc, piece));
        Ok(())
    }

    /// A transfer of another delivery is heard on it.
    #[inline(never)]
    fn receive_part(&mut self, piece: Piece) -> Result<(), AllocError>
        ensures ok { OnOk result (self.new ≡ with_piece piece self.old) }
        ensures err { OnErr result (self.new ≡ self.old) }
    {
        if piece.resumed && self.receiving.is_none() {
            return self.bring_in(piece);
        }
        self.join(piece)
    }

    /// A transfer is heard on it.
    pub(crate) fn hear(&mut self, piece: Piece) -> Result<(), AllocError>
        ensures ok { OnOk result (self.new ≡ with_piece piece self.old) }
        ensures err { OnErr result (self.new ≡ self.old) }
    {
        if self.receiving.is_none() && piece.is_whole() {
            return self.receive_whole(piece);
        }
        self.receive_part(piece)
    }

    /// The same, and it has these marks.
    pub(crate) fn hear_with(&mut self, piece: Piece, marks: &Marks) -> Result<(), AllocError>
        ensures ok { OnOk result (self.new ≡ with_heard marks.now piece self.old) }
        ensures number { self.new.number ≡ self.old.number }
        ensures theirs { self.new.theirs ≡ self.old.theirs }
        ensures err { OnErr result (self.new ≡ self.old) }
    {
        self.hear(piece)?;
        self.set_marks(marks);
        Ok(())
    }
}
