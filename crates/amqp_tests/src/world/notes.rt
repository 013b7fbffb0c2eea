//! What came about of two ends, and their dice.

use super::calls::{EMPTY, LINK, OFFERED, Said, hear, is_done, own};
use super::dice::Dice;
use crate::acts::Act;
use amqp_journal::entry::Entry;
use amqp_rules::reply::Given;
use amqp_world::side::Side;
use amqp_world::world::World;
use std::alloc::Global;

/// How often something came about.
#[derive(Clone, Copy)]
pub struct Tally {
    /// What should not have been.
    pub wrong: u32,
    /// Attaches and detaches of one link by both ends, before either heard the other's.
    pub attached_at_once: u32,
    pub left_at_once: u32,
    /// Deliveries that were taken; of these, with an id past 2^32.
    pub taken: u32,
    pub past: u32,
    /// Further transfers of deliveries, and deliveries that were given up.
    pub carried: u32,
    pub aborted: u32,
    pub learnt: u32,
}

/// What decides for two ends, and what came about.
#[derive(Clone, Copy)]
pub struct Notes {
    pub alloc: Global,
    pub dice: Dice,
    pub tally: Tally,
    /// The newest link of either end.
    newest_a: u32,
    newest_b: u32,
}

impl Tally {
    pub const NONE: Tally = Tally {
        wrong: 0,
        attached_at_once: 0,
        left_at_once: 0,
        taken: 0,
        past: 0,
        carried: 0,
        aborted: 0,
        learnt: 0,
    };

    /// Nothing was wrong, and each of the others came about so often that the run says something.
    pub fn is_right(&self) -> bool {
        self.wrong == 0
            && self.taken >= 800
            && self.learnt >= 300
            && self.past >= 600
            && self.carried >= 300
            && self.aborted >= 80
            && self.attached_at_once >= 80
            && self.left_at_once >= 80
    }

    /// Counts what is wrong.
    pub fn judge(&mut self, right: bool) {
        if !right {
            self.wrong = self.wrong.wrapping_add(1);
        }
    }
}

impl Notes {
    /// Of two ends with dice of their own, after others.
    pub fn new(alloc: Global, seed: u32, tally: Tally) -> Notes {
        Notes {
            alloc,
            dice: Dice::new(seed),
            tally,
            newest_a: 0,
            newest_b: 0,
        }
    }

    pub fn side(&mut self) -> Side {
        if self.dice.one_in(2) {
            Side::A
        } else {
            Side::B
        }
    }

    /// The newest link of the end; 0 where it has none.
    pub fn newest(&self, side: Side) -> u32 {
        match side {
            Side::A => self.newest_a,
            Side::B => self.newest_b,
        }
    }

    /// Looks up the newest link of either end in its journal.
    pub fn look(&mut self, world: &World) {
        self.newest_a = newest_in(world.side(Side::A).journal());
        self.newest_b = newest_in(world.side(Side::B).journal());
    }

    /// Notes the link that was made, if any: links are numbered in their order.
    fn note(&mut self, side: Side, said: Said) {
        if let Some((LINK | OFFERED, link)) = said {
            match side {
                Side::A => self.newest_a = link,
                Side::B => self.newest_b = link,
            }
        }
    }
}

/// The newest link that the entries made; 0 where they made none.
fn newest_in(entries: &[Entry]) -> u32 {
    let mut newest = 0u32;
    for entry in entries {
        if let Given::Link(link) | Given::Offered(link) = &entry.reply.given {
            newest = (*link).max(newest);
        }
    }
    newest
}

/// Does the operation, if it may.
pub fn does(world: &mut World, notes: &mut Notes, side: Side, act: Act) -> bool {
    let said = own(notes.alloc, world, side, act);
    notes.note(side, said);
    is_done(said)
}

/// Hears the next frame, if one waits. It is wrong that an end hears nothing and is not told that none waits: memory is there, and the journal has room.
pub fn hears(world: &mut World, notes: &mut Notes, side: Side) -> bool {
    let said = hear(world, side);
    notes.note(side, said);
    let heard = is_done(said);
    notes.tally.judge(heard || said == Some((EMPTY, 0)));
    heard
}
