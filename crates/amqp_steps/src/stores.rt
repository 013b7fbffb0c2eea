//! The links and the unsettled deliveries, and what a step makes of both.
ghost use Rattle.std.specs.Prelude.{◌≡◌, ◌<◌, ◌^◌, [], OnOk, OnErr};
ghost use Rattle.amqp_steps.specs.Stores.{IsMet, MayNeed, stores_after};
ghost use Rattle.amqp_steps.specs.Starting.{change_begun};

use amqp_deliveries::{Change, Disposition, HeldItem, Tables};
use amqp_links::arrival::Piece;
use amqp_links::fate::Fate;
use amqp_links::links::Links;
use amqp_links::marks::Marks;
use amqp_performatives::{DeliveryState, Role};
use std::alloc::{AllocError, Global};
use std::marker::Model;

/// The links that are not gone, and the deliveries that are not settled.
pub struct Stores {
    pub links: Links,
    pub tables: Tables,
}

// By hand, so that a crate that owns one does not prove its parts' drops again.
impl Drop for Stores {
    fn drop(self) {
        let Stores { links, tables } = self;
        drop(links);
        drop(tables);
    }
}

impl Model for Stores {
    ghost use Rattle.std.specs.Coded.{codes};
    ghost use Rattle.amqp_types.specs.contracts.value.Value as value;
    ghost use Rattle.amqp_steps.specs.Stores.{StoresView};

    ghost Value = { StoresView };

    ghost coded = { Prim.hlevel (codes, value.the_row.coded) };

    ghost view = { λ s. record { links = s.links; tables = s.tables } };
}

impl Stores {
    /// No link, and no delivery. It takes no memory.
    pub fn new(alloc: Global) -> Stores
        ensures { result ≡ record { links = record { made = 0; list = [] }; tables = record { sent = []; received = [] } } }
    {
        Stores {
            links: Links::new(alloc),
            tables: Tables::new(alloc),
        }
    }

    /// A delivery begins. Where the links cannot follow, it is taken back.
    fn begin(&mut self, fate: Fate, role: Role, item: HeldItem) -> Result<(), AllocError>
        requires met { IsMet fate (Change.Begins role item) self.old }
        requires made { self.old.links.made < 2 ^ 31 }
        ensures ok { OnOk result (self.new ≡ stores_after fate (Change.Begins role item) self.old) }
        ensures err { OnErr result (self.new ≡ self.old) }
    {
        match self.tables.begin(role, item) {
            Ok(()) => {}
            Err(e) => {
                drop(fate);
                return Err(e);
            }
        }
        match self.links.meet(fate) {
            Ok(()) => Ok(()),
            Err(e) => {
                self.tables.take_back(role);
                Err(e)
            }
        }
    }

    /// A later transfer of a delivery.
    fn go_on(
        &mut self,
        fate: Fate,
        role: Role,
        id: u32,
        state: Option<DeliveryState>,
        over: bool,
    ) -> Result<(), AllocError>
        requires met { IsMet fate (Change.Continues role id state over) self.old }
        requires made { self.old.links.made < 2 ^ 31 }
        ensures ok { OnOk result (self.new ≡ stores_after fate (Change.Continues role id state over) self.old) }
        ensures err { OnErr result (self.new ≡ self.old) }
    {
        match self.links.meet(fate) {
            Ok(()) => {
                self.tables.go_on(role, id, state, over);
                Ok(())
            }
            Err(e) => {
                drop(state);
                Err(e)
            }
        }
    }

    /// A disposition of the peer's: what it tells of our deliveries waits on their links to be learnt.
    fn hear(&mut self, role: Role, said: &Disposition) -> Result<(), AllocError>
        ensures ok { OnOk result (self.new ≡ stores_after Fate.Stay (Change.Hears role said.now) self.old) }
        ensures err { OnErr result (self.new ≡ self.old) }
        ensures needs { OnErr result (MayNeed (Change.Hears role said.now) self.old.tables) }
    {
        match role {
            Role::Receiver => self.tables.hear(role, said),
            Role::Sender => {
                let told = self.tables.tellings(said)?;
                let links = self.links.tell(told)?;
                match self.tables.hear(role, said) {
                    Ok(()) => Ok(()),
                    Err(e) => {
                        self.links.untell(links);
                        Err(e)
                    }
                }
            }
        }
    }

    /// A delivery of ours begins on the link, which has these marks. One that is sent settled is not held.
    pub fn start(
        &mut self,
        key: usize,
        number: u32,
        marks: &Marks,
        settled: bool,
        item: HeldItem,
    ) -> Result<(), AllocError>
        requires met { IsMet (Fate.Marked key number marks.now) (change_begun settled item) self.old }
        ensures ok { OnOk result (self.new ≡ stores_after (Fate.Marked key number marks.now) (change_begun settled item) self.old) }
        ensures err { OnErr result (self.new ≡ self.old) }
    {
        if settled {
            drop(item);
            self.links.mark(key, number, marks);
            return Ok(());
        }
        match self.tables.begin(Role::Sender, item) {
            Ok(()) => {
                self.links.mark(key, number, marks);
                Ok(())
            }
            Err(e) => Err(e),
        }
    }

    /// The link has these marks.
    pub fn mark(&mut self, key: usize, number: u32, marks: &Marks)
        ensures { self.new ≡ stores_after (Fate.Marked key number marks.now) Change.Stay self.old }
    {
        self.links.mark(key, number, marks);
    }

    /// A transfer is heard on the link, which has these marks, and begins a delivery. Where the link cannot follow, it is taken back.
    pub fn arrive_first(
        &mut self,
        key: usize,
        number: u32,
        marks: &Marks,
        piece: Piece,
        role: Role,
        item: HeldItem,
    ) -> Result<(), AllocError>
        requires met { IsMet (Fate.Heard key number marks.now piece) (Change.Begins role item) self.old }
        ensures ok { OnOk result (self.new ≡ stores_after (Fate.Heard key number marks.now piece) (Change.Begins role item) self.old) }
        ensures err { OnErr result (self.new ≡ self.old) }
    {
        match self.tables.begin(role, item) {
            Ok(()) => {}
            Err(e) => {
                drop(piece);
                return Err(e);
            }
        }
        match self.links.hear(key, number, marks, piece) {
            Ok(()) => Ok(()),
            Err(e) => {
                self.tables.take_back(role);
                Err(e)
            }
        }
    }

    /// A transfer is heard on the link, which has these marks; the unsettled deliveries change so.
    pub fn arrive(
        &mut self,
        key: usize,
        number: u32,
        marks: &Marks,
        piece: Piece,
        change: Change,
    ) -> Result<(), AllocError>
        requires met { IsMet (Fate.Heard key number marks.now piece) change self.old }
        requires made { self.old.links.made < 2 ^ 31 }
        ensures ok { OnOk result (self.new ≡ stores_after (Fate.Heard key number marks.now piece) change self.old) }
        ensures err { OnErr result (self.new ≡ self.old) }
    {
        match change {
            Change::Stay => self.links.hear(key, number, marks, piece),
            Change::Begins(role, item) => self.arrive_first(key, number, marks, piece, role, item),
            Change::Continues(role, id, state, over) => {
                match self.links.hear(key, number, marks, piece) {
                    Ok(()) => {
                        self.tables.go_on(role, id, state, over);
                        Ok(())
                    }
                    Err(e) => {
                        drop(state);
                        Err(e)
                    }
                }
            }
            change => self.keep(
                Fate::Heard {
                    key,
                    number,
                    marks: *marks,
                    piece,
                },
                change,
            ),
        }
    }

    /// What waits first on the link is taken.
    pub fn take(&mut self, key: usize, number: u32)
        ensures { self.new ≡ stores_after (Fate.Taken key number) Change.Stay self.old }
    {
        self.links.take(key, number);
    }

    /// What was told first of the link's deliveries is learnt.
    pub fn learn(&mut self, key: usize, number: u32)
        ensures { self.new ≡ stores_after (Fate.Learnt key number) Change.Stay self.old }
    {
        self.links.learn(key, number);
    }

    /// They become what they are to be. Memory is asked for before anything changes; for a disposition only as `MayNeed` tells.
    pub fn keep(&mut self, fate: Fate, change: Change) -> Result<(), AllocError>
        requires met { IsMet fate change self.old }
        requires made { self.old.links.made < 2 ^ 31 }
        ensures ok { OnOk result (self.new ≡ stores_after fate change self.old) }
        ensures err { OnErr result (self.new ≡ self.old) }
        ensures needs { OnErr result (MayNeed change self.old.tables) }
    {
        match change {
            Change::Stay => self.links.meet(fate),
            Change::Begins(role, item) => self.begin(fate, role, item),
            Change::Continues(role, id, state, over) => self.go_on(fate, role, id, state, over),
            Change::Says(role, said) => {
                drop(fate);
                self.tables.say(role, &said)
            }
            Change::Hears(role, said) => {
                drop(fate);
                self.hear(role, &said)
            }
            Change::Leaves(link) => {
                self.links.meet(fate)?;
                self.tables.leave(link);
                Ok(())
            }
            Change::Over => {
                self.links.meet(fate)?;
                self.tables.clear();
                Ok(())
            }
        }
    }
}
