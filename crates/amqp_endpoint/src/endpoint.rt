//! One end of a session.
ghost use Rattle.std.specs.Prelude.{◌≡◌, ◌<◌, ◌^◌, OnOk, OnErr, IfOk};
ghost use Rattle.amqp_steps.specs.Plan.{IsSound, KeepsApart, octets_sent, plan_reply, planned};

use crate::reply::Reply;
use amqp_rules::sliced::Sliced;
use amqp_steps::cutting::Cutter;
use amqp_steps::plan::{Plan, Session};
use amqp_steps::sending::list_sent;
use amqp_steps::stores::Stores;
use std::alloc::{AllocError, Global};
use std::marker::Model;

mod abort;
mod applying;
mod arriving;
mod attach;
mod beat;
mod begin;
mod carry;
mod detach;
mod dispose;
mod doing;
mod drafting;
mod drained;
mod end;
mod grant;
mod learn;
mod left;
mod offer;
mod opened;
mod peer_attach;
mod peer_begin;
mod peer_detach;
mod peer_disposition;
mod peer_end;
mod peer_flow;
mod peer_transfer;
mod readers;
mod refresh;
mod resume;
mod start;
mod steps;
mod suspend;
mod take;

/// One end of a session. A refused operation and a frame that is not taken change nothing.
pub struct Endpoint {
    alloc: Global,
    steps: u32,
    session: Session,
    stores: Stores,
    /// Where the octets of short frames come from.
    cutter: Cutter,
}

// By hand, so that a crate that owns one does not prove its parts' drops again.
impl Drop for Endpoint {
    fn drop(self) {
        let Endpoint {
            alloc: _,
            steps: _,
            session: _,
            stores,
            cutter,
        } = self;
        drop(stores);
        drop(cutter);
    }
}

impl Model for Endpoint {
    ghost use Rattle.std.specs.Coded.{codes};
    ghost use Rattle.amqp_types.specs.contracts.value.Value as value;
    ghost use Rattle.amqp_rules.specs.View.{View};
    ghost use Rattle.amqp_steps.specs.Plan.{IsKept, view_of};

    ghost Value = { View };

    ghost coded = { Prim.hlevel (codes, value.the_row.coded) };

    ghost view = { λ e. view_of e.steps e.session e.stores };

    ghost invariant = { λ e. IsKept e.steps e.session e.stores };
}

impl Endpoint {
    /// Does what was planned of this endpoint, since when no step was done: its reply, and a handle of the octets that are sent. All memory is
    /// asked for before anything changes.
    pub(crate) fn commit(&mut self, plan: Plan) -> Result<(Reply, Option<Sliced>), AllocError>
        requires steps { self.old.steps < 2 ^ 30 }
        requires sound { IsSound self.old plan }
        requires apart { KeepsApart self.old (planned self.old plan) }
        ensures reply { IfOk result (λ both. both.0 ≡ plan_reply plan self.old) }
        ensures octets { IfOk result (λ both. both.1 ≡ octets_sent plan.sent) }
        ensures next { OnOk result (self.new ≡ planned self.old plan) }
        ensures err { OnErr result (self.new ≡ self.old) }
    {
        let Plan {
            session,
            fate,
            change,
            sent,
            given,
        } = plan;
        let ended = match self.stores.tables.ended(&change) {
            Ok(ended) => ended,
            Err(e) => {
                drop(sent);
                drop(given);
                drop(change);
                drop(fate);
                return Err(e);
            }
        };
        match self.stores.keep(fate, change) {
            Ok(()) => {}
            Err(e) => {
                drop(sent);
                drop(given);
                return Err(e);
            }
        }
        let (sent, octets) = list_sent(self.alloc, sent);
        self.steps += 1;
        self.session = session;
        Ok((Reply { sent, ended, given }, octets))
    }
}
