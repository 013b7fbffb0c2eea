//! The links become what a step makes of them.
ghost use Rattle.std.specs.Prelude.{◌≡◌, ◌<◌, ◌^◌, [], OnOk, OnErr};
ghost use Rattle.amqp_links.specs.Fate.{IsFit, links_after};
ghost use Rattle.amqp_links.specs.Links.{LinksView};
ghost use Rattle.amqp_rules.specs.View.{has_number, remove_first};

use crate::arrival::Piece;
use crate::end::End;
use crate::fate::Fate;
use crate::links::Links;
use crate::marks::Marks;
use crate::resuming::Resuming;
use amqp_types::{Tag, Text};
use std::alloc::AllocError;

impl Links {
    /// Our attach of the link with this number was sent.
    fn attach(
        &mut self,
        number: u32,
        end: End,
        marks: &Marks,
        resuming: Resuming,
    ) -> Result<(), AllocError>
        requires fit { IsFit (Fate.Ours 0 number end marks.now resuming) self.old }
        requires made { self.old.made < 2 ^ 31 }
        ensures next { OnOk result (self.new ≡ links_after (Fate.Ours 0 number end marks.now resuming) self.old) }
        ensures err { OnErr result (self.new ≡ self.old) }
    {
        self.store.rising();
        let Some(found) = self.store.by_number(number) else {
            drop(end);
            drop(resuming);
            return Ok(());
        };
        let key = found.key;
        self.handles.reserve()?;
        self.handles.take();
        self.store.attach(key, number, end, marks, resuming);
        Ok(())
    }

    /// A link more, which the peer offers.
    fn offer(
        &mut self,
        name: Text,
        end: End,
        marks: &Marks,
        resuming: Resuming,
    ) -> Result<(), AllocError>
        requires fit { IsFit (Fate.Offered name end marks.now resuming) self.old }
        requires made { self.old.made < 2 ^ 31 }
        ensures next { OnOk result (self.new ≡ links_after (Fate.Offered name end marks.now resuming) self.old) }
        ensures err { OnErr result (self.new ≡ self.old) }
    {
        self.store.rising();
        let number = self.store.made();
        self.names.put(&name, number)?;
        match self.store.offer(name, end, marks, resuming) {
            Ok(()) => Ok(()),
            Err(name) => {
                self.names.remove(&name, number);
                Err(AllocError)
            }
        }
    }

    /// A link more, which we ask for.
    fn ask(
        &mut self,
        name: Text,
        end: End,
        marks: &Marks,
        resuming: Resuming,
    ) -> Result<(), AllocError>
        requires fit { IsFit (Fate.Asked name end marks.now resuming) self.old }
        requires made { self.old.made < 2 ^ 31 }
        ensures next { OnOk result (self.new ≡ links_after (Fate.Asked name end marks.now resuming) self.old) }
        ensures err { OnErr result (self.new ≡ self.old) }
    {
        self.store.rising();
        let number = self.store.made();
        self.handles.reserve()?;
        self.names.put(&name, number)?;
        match self.store.ask(name, end, marks, resuming) {
            Ok(()) => {
                self.handles.take();
                Ok(())
            }
            Err(name) => {
                self.names.remove(&name, number);
                Err(AllocError)
            }
        }
    }

    /// The link with this number is gone.
    fn remove(&mut self, key: usize, number: u32)
        ensures { self.new ≡ record self.old { list = remove_first (has_number number) self.old.list } }
    {
        self.store.rising();
        let Some(link) = self.store.remove(key, number) else {
            return;
        };
        self.names.remove(link.name(), number);
        if link.is_ours() {
            self.handles.give(link.our_handle());
        }
        drop(link);
    }

    /// All links are gone.
    fn clear(&mut self)
        ensures { self.new ≡ record self.old { list = [] } }
    {
        self.store.clear();
        self.names.clear();
        self.handles.clear();
    }

    /// The link with this number, which stands under the key, has these marks: the step `Marked`, by itself.
    pub fn mark(&mut self, key: usize, number: u32, marks: &Marks)
        ensures { self.new ≡ links_after (Fate.Marked key number marks.now) self.old }
    {
        self.store.mark(key, number, marks);
    }

    /// What waits first on the link with this number is taken: the step `Taken`, by itself.
    pub fn take(&mut self, key: usize, number: u32)
        ensures { self.new ≡ links_after (Fate.Taken key number) self.old }
    {
        self.store.take(key, number);
    }

    /// What was told first of the deliveries of the link with this number is learnt: the step `Learnt`, by itself.
    pub fn learn(&mut self, key: usize, number: u32)
        ensures { self.new ≡ links_after (Fate.Learnt key number) self.old }
    {
        self.store.learn(key, number);
    }

    /// The delivery with this tag is resumed on the link with this number, which has these marks: the step `Resumed`, by itself.
    pub fn resume(&mut self, key: usize, number: u32, marks: &Marks, tag: &Tag)
        ensures { self.new ≡ links_after (Fate.Resumed key number marks.now tag.now) self.old }
    {
        self.store.resume(key, number, marks, tag);
    }

    /// A transfer is heard on the link with this number, which has these marks: the step `Heard`, by itself.
    pub fn hear(
        &mut self,
        key: usize,
        number: u32,
        marks: &Marks,
        piece: Piece,
    ) -> Result<(), AllocError>
        ensures next { OnOk result (self.new ≡ links_after (Fate.Heard key number marks.now piece) self.old) }
        ensures err { OnErr result (self.new ≡ self.old) }
    {
        self.store.hear(key, number, marks, piece)
    }

    /// The links become what they are to be. Memory is asked for before anything changes.
    pub fn meet(&mut self, fate: Fate) -> Result<(), AllocError>
        requires fit { IsFit fate self.old }
        requires made { self.old.made < 2 ^ 31 }
        ensures next { OnOk result (self.new ≡ links_after fate self.old) }
        ensures err { OnErr result (self.new ≡ self.old) }
    {
        match fate {
            Fate::Stay => Ok(()),
            Fate::Marked { key, number, marks } => {
                self.mark(key, number, &marks);
                Ok(())
            }
            Fate::Ours {
                key: _,
                number,
                end,
                marks,
                resuming,
            } => self.attach(number, end, &marks, resuming),
            Fate::Theirs {
                key,
                number,
                end,
                marks,
                resuming,
            } => self.store.answer(key, number, end, &marks, resuming),
            Fate::Asked {
                name,
                end,
                marks,
                resuming,
            } => self.ask(name, end, &marks, resuming),
            Fate::Offered {
                name,
                end,
                marks,
                resuming,
            } => self.offer(name, end, &marks, resuming),
            Fate::Left { key, number } => {
                self.store.leave(key, number);
                Ok(())
            }
            Fate::Taken { key, number } => {
                self.take(key, number);
                Ok(())
            }
            Fate::Learnt { key, number } => {
                self.learn(key, number);
                Ok(())
            }
            Fate::Heard {
                key,
                number,
                marks,
                piece,
            } => self.hear(key, number, &marks, piece),
            Fate::Resumed {
                key,
                number,
                marks,
                tag,
            } => {
                self.resume(key, number, &marks, &tag);
                Ok(())
            }
            Fate::Gone { key, number } => {
                self.remove(key, number);
                Ok(())
            }
            Fate::AllGone => {
                self.clear();
                Ok(())
            }
        }
    }
}
