//! What a framer's answer does to a connection.
ghost use Rattle.std.specs.Prelude.{◌≡◌, ◌≢◌, IsSome, IfOk};
ghost use Rattle.amqp_frames.specs.Slots.{told_with};
ghost use Rattle.amqp_conn.specs.declared.phase.Phase.{Phase};
ghost use Rattle.amqp_conn.specs.Treats.{Treats, PutsBack, EndsAll, EndsFor, Acts};

use crate::fault::ConnFault;
use crate::fed::Fed;
use crate::treating::{Machine, nothing};
use amqp_frames::{Filled, Frame, FrameFault, Framer};
use amqp_types::Boxed;
use std::alloc::Global;

/// Takes the frame out of its slot if it is kept.
#[inline(always)]
pub(crate) fn act(
    alloc: Global,
    machine: &mut Boxed<Machine>,
    framer: &mut Framer,
    answer: Result<Filled, FrameFault>,
    slot: &mut Frame,
) -> Result<Fed, ConnFault>
    requires open { machine.old.phase ≢ Phase.Closed }
    requires max { framer.old.state.max_size ≡ machine.old.config.max_frame }
    requires before { IfOk answer (λ a. IsSome framer.old.state.before) }
    ensures { Acts (told_with answer slot.old) machine.old framer.old.state result machine.new framer.new.state }
{
    match answer {
        Err(fault) => Err(end_whole(alloc, &mut machine.boxed, framer, fault)),
        Ok(Filled::Part(used)) => Ok(nothing(used)),
        Ok(Filled::Whole(used)) => treat_whole(&mut machine.boxed, framer, used, slot),
    }
}

fn end_whole(
    alloc: Global,
    machine: &mut Machine,
    framer: &mut Framer,
    fault: FrameFault,
) -> ConnFault
    requires open { machine.old.phase ≢ Phase.Closed }
    requires max { framer.old.state.max_size ≡ machine.old.config.max_frame }
    ensures { EndsFor fault machine.old framer.old.state result machine.new framer.new.state }
{
    match fault {
        FrameFault::ShortSize => end_all(
            alloc,
            machine,
            framer,
            ConnFault::Framing(FrameFault::ShortSize),
        ),
        FrameFault::BadDoff => end_all(
            alloc,
            machine,
            framer,
            ConnFault::Framing(FrameFault::BadDoff),
        ),
        FrameFault::TooBig => end_all(
            alloc,
            machine,
            framer,
            ConnFault::Framing(FrameFault::TooBig),
        ),
        FrameFault::BadKind => end_all(
            alloc,
            machine,
            framer,
            ConnFault::Framing(FrameFault::BadKind),
        ),
        FrameFault::BadBody => end_all(
            alloc,
            machine,
            framer,
            ConnFault::Framing(FrameFault::BadBody),
        ),
        FrameFault::NoMemory => ConnFault::NoMemory,
    }
}

fn end_all(alloc: Global, machine: &mut Machine, framer: &mut Framer, fault: ConnFault) -> ConnFault
    requires open { machine.old.phase ≢ Phase.Closed }
    requires max { framer.old.state.max_size ≡ machine.old.config.max_frame }
    requires told { fault ≢ ConnFault.NoMemory }
    ensures { EndsAll fault machine.old framer.old.state result machine.new framer.new.state }
{
    let max = machine.max_frame();
    match machine.end(fault) {
        ConnFault::NoMemory => ConnFault::NoMemory,
        told => {
            *framer = Framer::new(alloc, max);
            told
        }
    }
}

#[inline(always)]
fn treat_whole(
    machine: &mut Machine,
    framer: &mut Framer,
    used: usize,
    slot: &mut Frame,
) -> Result<Fed, ConnFault>
    requires { IsSome framer.old.state.before }
    ensures treats { Treats machine.old slot.old used result machine.new }
    ensures back { PutsBack result framer.old.state framer.new.state }
{
    let answer = machine.treat(used, slot);
    put_back(framer, &answer);
    answer
}

/// A frame that was not taken must be read again by the next feed.
#[inline(always)]
fn put_back(framer: &mut Framer, answer: &Result<Fed, ConnFault>)
    requires { IsSome framer.old.state.before }
    ensures { PutsBack answer.now framer.old.state framer.new.state }
{
    match answer {
        Ok(fed) => {
            if fed.violation.is_some() {
                framer.unread();
            }
        }
        Err(ConnFault::NoMemory) => framer.unread(),
        Err(_) => {}
    }
}
