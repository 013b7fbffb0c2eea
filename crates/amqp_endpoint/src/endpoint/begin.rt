//! Begin: the session is begun, or the peer's begin is answered (part 2, 2.5.1 and 2.7.2).
ghost use Rattle.std.specs.Prelude.{◌≡◌, Some, None, if◌then◌else◌};
ghost use Rattle.std.specs.Result.{result_err};
ghost use Rattle.amqp_rules.specs.Begin.{begin_answer, begin_body, next_begin};
ghost use Rattle.amqp_steps.specs.Plan.{Plans};

use crate::endpoint::Endpoint;
use crate::refusal::Refusal;
use crate::reply::Given;
use amqp_deliveries::Change;
use amqp_frames::{BeginBody, Performative, measure_begin};
use amqp_links::fate::Fate;
use amqp_steps::plan::{Plan, plan_sending};
use amqp_steps::sending::measured_refusal;
use amqp_steps::telling::OUTGOING_WINDOW;
use amqp_types::Boxed;

/// The channel of the begin that is answered.
fn answered_channel(begin_heard: bool) -> Option<u16>
    ensures { result ≡ (if begin_heard then Some 0 else None) }
{
    match begin_heard {
        true => Some(0),
        false => None,
    }
}

impl Endpoint {
    /// What our begin tells.
    fn begin_told(&self) -> BeginBody
        ensures { Some (Performative.Begin result) ≡ begin_body self.now }
    {
        BeginBody {
            remote_channel: answered_channel(self.session.begin_heard),
            next_outgoing_id: self.session.windows.next_outgoing(),
            incoming_window: self.session.windows.window(),
            outgoing_window: OUTGOING_WINDOW,
            handle_max: None,
            offered_capabilities: None,
            desired_capabilities: None,
            properties: None,
        }
    }

    /// The refusal that is due.
    pub(crate) fn refuse_begin(&self) -> Option<Refusal>
        ensures { result ≡ result_err (begin_answer self.now) }
    {
        if !self.session.may_begin() {
            return Some(Refusal::AlreadyBegun);
        }
        let told = self.begin_told();
        let refusal = measured_refusal(measure_begin(&told, self.session.max_frame));
        drop(told);
        refusal
    }

    /// Begins the session. O(1).
    pub(crate) fn plan_begin(&self) -> Result<Plan, Refusal>
        ensures { Plans Refusal.NoMemory self.now (begin_answer self.now) (next_begin self.now) result }
    {
        if let Some(refusal) = self.refuse_begin() {
            return Err(refusal);
        }
        let Ok(body) = Boxed::new(self.alloc, self.begin_told()) else {
            return Err(Refusal::NoMemory);
        };
        let mut session = self.session;
        session.begin_sent = true;
        session.windows.renew();
        plan_sending(
            self.alloc,
            session,
            Fate::Stay,
            Change::Stay,
            Some(Performative::Begin(body)),
            Given::Nothing,
        )
    }
}
