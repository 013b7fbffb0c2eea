//! What becomes of the deliveries that are held.
ghost use Rattle.std.specs.Prelude.{◌≡◌, ◌≢◌, ◌-◌, [], false, take, length, OnOk, OnErr};
ghost use Rattle.amqp_events.specs.Event as event;
ghost use Rattle.amqp_events.specs.Told.{next_sent_held};
ghost use Rattle.amqp_deliveries.specs.Held.{items_of, covered, uncovered, change_covered, unlinked, GivesState};
ghost use Rattle.amqp_deliveries.specs.Edits.{stated};
ghost use Rattle.amqp_deliveries.specs.Span.{IsWithin, without, change_part};
ghost use Rattle.amqp_deliveries.specs.declared.item.Side.TheVariants.{Local, Remote};

use super::{Held, loops};
use crate::disposition::Disposition;
use crate::item::Side;
use crate::span::Span;
use amqp_performatives::DeliveryState;
use std::alloc::AllocError;

impl Held {
    /// The deliveries at these places end.
    pub(crate) fn end_span(&mut self, span: Span)
        requires { IsWithin span self.old }
        ensures { self.new ≡ without span self.old }
    {
        loops::forget(&mut self.tags, &self.items, span);
        loops::cut(&mut self.items, span);
    }

    /// The last delivery ends.
    pub(crate) fn take_back(&mut self)
        ensures { self.new ≡ take (length self.old - 1) self.old }
    {
        let len = self.items.len();
        self.end_span(Span {
            start: len.saturating_sub(1),
            end: len,
        });
    }

    /// The deliveries that the ids `first` to `last` cover end. It takes no memory.
    pub fn end_range(&mut self, first: u32, last: u32)
        ensures { self.new ≡ uncovered first last self.old }
    {
        let span = self.span(first, last);
        self.end_span(span);
    }

    /// The deliveries of a link end.
    pub fn end_link(&mut self, link: u32)
        ensures { self.new ≡ unlinked link self.old }
    {
        self.tags.remove_link(link);
        self.items.retain(|entry| entry.link() != link);
    }

    /// All end.
    pub fn end_all(&mut self)
        ensures { self.new ≡ [] }
    {
        self.tags.clear();
        self.items.clear();
    }

    /// One end gives this state to the deliveries at these places, which tells what became of them or does not.
    /// Each keeps a copy, and all copies are made before the first is kept.
    pub(crate) fn set_at(
        &mut self,
        span: Span,
        side: Side,
        tells: bool,
        state: &DeliveryState,
    ) -> Result<(), AllocError>
        requires { IsWithin span self.old }
        ensures ok { OnOk result (self.new ≡ change_part span (stated side tells state.now) self.old) }
        ensures err { OnErr result (self.new ≡ self.old) }
    {
        let copies = loops::copies(self.alloc, state, span.len())?;
        loops::keep(&mut self.items, span, side, tells, copies);
        Ok(())
    }

    /// The same by the ids `first` to `last`: where they cover none, no memory is asked for.
    fn set_covered(
        &mut self,
        first: u32,
        last: u32,
        side: Side,
        tells: bool,
        state: &DeliveryState,
    ) -> Result<(), AllocError>
        ensures ok { OnOk result (self.new ≡ change_covered first last (stated side tells state.now) self.old) }
        ensures err { OnErr result (self.new ≡ self.old) }
        ensures some { OnErr result (covered first last self.old ≢ []) }
    {
        let span = self.span(first, last);
        if span.is_empty() {
            return Ok(());
        }
        self.set_at(span, side, tells, state)
    }

    /// We give this state to the deliveries that the ids `first` to `last` cover: a copy for each, for which memory is asked.
    pub fn set_local(
        &mut self,
        first: u32,
        last: u32,
        state: &DeliveryState,
    ) -> Result<(), AllocError>
        ensures ok { OnOk result (self.new ≡ change_covered first last (stated Local false state.now) self.old) }
        ensures err { OnErr result (self.new ≡ self.old) }
        ensures some { OnErr result (covered first last self.old ≢ []) }
    {
        self.set_covered(first, last, Side::Local, false, state)
    }

    /// The same of the state that the peer gives. Whether what became of them was told stays as it was.
    pub fn set_remote(
        &mut self,
        first: u32,
        last: u32,
        state: &DeliveryState,
    ) -> Result<(), AllocError>
        ensures ok { OnOk result (self.new ≡ change_covered first last (stated Remote false state.now) self.old) }
        ensures err { OnErr result (self.new ≡ self.old) }
        ensures some { OnErr result (covered first last self.old ≢ []) }
    {
        self.set_covered(first, last, Side::Remote, false, state)
    }

    /// We say this of its deliveries. Memory is asked for where it gives a state to some that stay, and nowhere else.
    pub fn say(&mut self, said: &Disposition) -> Result<(), AllocError>
        ensures ok { OnOk result (self.new ≡ next_sent_held (event.Says said.now) self.old) }
        ensures err { OnErr result (self.new ≡ self.old) }
        ensures needs { OnErr result (GivesState said.now (items_of self.old)) }
    {
        if said.settled {
            self.end_range(said.first, said.last);
            return Ok(());
        }
        match &said.state {
            None => Ok(()),
            Some(state) => self.set_local(said.first, said.last, state),
        }
    }

    /// The peer says this of its deliveries. Memory is asked for where it gives a state to some that stay, and nowhere else.
    pub fn hear(&mut self, said: &Disposition) -> Result<(), AllocError>
        ensures ok { OnOk result (self.new ≡ next_sent_held (event.Hears said.now) self.old) }
        ensures err { OnErr result (self.new ≡ self.old) }
        ensures needs { OnErr result (GivesState said.now (items_of self.old)) }
    {
        if said.settled {
            self.end_range(said.first, said.last);
            return Ok(());
        }
        match &said.state {
            None => Ok(()),
            Some(state) => {
                let tells = state.is_outcome();
                self.set_covered(said.first, said.last, Side::Remote, tells, state)
            }
        }
    }

    /// A later transfer of the delivery with this id: it ends, or the peer gives it a state.
    pub fn go_on(&mut self, id: u32, state: Option<DeliveryState>, over: bool)
        ensures { self.new ≡ next_sent_held (event.Continues id state over) self.old }
    {
        let span = self.span(id, id);
        if over {
            self.end_span(span);
            return;
        }
        if let Some(state) = state {
            loops::set_first(&mut self.items, span, state);
        }
    }
}
