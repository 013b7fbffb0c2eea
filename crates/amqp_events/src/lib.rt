//! The deliveries of one direction, those that we send or those that we receive, as what the events of a journal say of them: which are
//! unsettled, with which states, which were ended, what the sender was told, and what the transfers of a link join to. The definitions are
//! filters and counts over all events (`specs/`); there is no code. The laws of `laws`:
//!
//! | clause | law |
//! |---|---|
//! | `held`, `sent` | one event more changes the unsettled deliveries by a single step, and with them whether each was told |
//! | `told` | one event more changes what is told and not learnt of a link by a single step |
//! | `sent_order`, `heard_order` | the unsettled deliveries stand in the order of their serial numbers |
//! | `sent_past`, `heard_past` | the next id comes after them all |
//! | `sent_once`, `heard_once` | none is named as ended twice |
//! | `told_once` | of each delivery that we send something is told once |
//! | `sent_left`, `heard_left` | the unsettled ones are those that began unsettled less those that were named as ended |
//! | `tags` | no two unsettled deliveries of a link have one tag |
//! | `unfinished`, `ready` | one transfer more changes the unfinished delivery of a link, and those that can be taken, by a single step |
//! | `taken` | what is taken is the first that can be taken |
//!
//! The laws of order want ids that are given as the standard says (`AreSentInOrder`, `AreHeardInOrder`) and at most 2^30 events, so that ids
//! lie less than 2^31 apart (RFC 1982).
#![tactic(auto)]

ghost use Rattle.std.specs.Prelude.{ℕ, List, ◌≡◌, ◌≤◌, ◌+◌, ◌^◌, ◌++◌, ◌∷◌, length, drop, map, IfSome};
ghost use Rattle.amqp_flow.specs.Serial.{wire};
ghost use Rattle.amqp_events.specs.Event.{Event};
ghost use Rattle.amqp_events.specs.Unsettled.{held, next_held};
ghost use Rattle.amqp_events.specs.Numbers.{AreSentInOrder, AreHeardInOrder, deliveries, expected};
ghost use Rattle.amqp_events.specs.Named.{named, ids_of, ids_begun, less};
ghost use Rattle.amqp_events.specs.Told.{told, sent_held, next_sent_held, to_learn, next_to_learn};
ghost use Rattle.amqp_events.specs.Tags.{AreFree, AreApart};
ghost use Rattle.amqp_events.specs.Joined.{Transferred, unfinished, next_unfinished, ready, complete, completed, next_delivery};
ghost use Rattle.amqp_events.specs.Laws.{AreInOrder, IsPast, AreDistinct, AreLearnt};

/// The laws of deliveries; the crate's root says each in a sentence.
pub fn laws()
    ensures held { (e : Event) (past : List Event) → held (e ∷ past) ≡ next_held e (held past) }
    ensures sent { (e : Event) (past : List Event) → sent_held (e ∷ past) ≡ next_sent_held e (sent_held past) }
    ensures told { (k : ℕ) (e : Event) (past : List Event) → AreLearnt past → to_learn k (e ∷ past) ≡ next_to_learn k e (sent_held past) (to_learn k past) }
    ensures sent_order { (first : ℕ) (past : List Event) → AreSentInOrder first past → length past ≤ 2 ^ 30 → AreInOrder (held past) }
    ensures sent_past { (first : ℕ) (past : List Event) → AreSentInOrder first past → length past ≤ 2 ^ 30 → IsPast (wire (first + deliveries past)) (held past) }
    ensures sent_once { (first : ℕ) (past : List Event) → AreSentInOrder first past → length past ≤ 2 ^ 30 → AreDistinct (named past) }
    ensures told_once { (first : ℕ) (past : List Event) → AreSentInOrder first past → length past ≤ 2 ^ 30 → AreDistinct (map (λ t. t.id) (told past)) }
    ensures heard_order { (past : List Event) → AreHeardInOrder past → length past ≤ 2 ^ 30 → AreInOrder (held past) }
    ensures heard_past { (past : List Event) → AreHeardInOrder past → length past ≤ 2 ^ 30 → IfSome (expected past) (λ next. IsPast next (held past)) }
    ensures heard_once { (past : List Event) → AreHeardInOrder past → length past ≤ 2 ^ 30 → AreDistinct (named past) }
    ensures sent_left { (first : ℕ) (past : List Event) → AreSentInOrder first past → length past ≤ 2 ^ 30 → ids_of (held past) ≡ less (ids_begun past) (named past) }
    ensures heard_left { (past : List Event) → AreHeardInOrder past → length past ≤ 2 ^ 30 → ids_of (held past) ≡ less (ids_begun past) (named past) }
    ensures tags { (past : List Event) → AreFree past → AreApart (held past) }
    ensures unfinished { (t : Transferred) (past : List Transferred) → unfinished (t ∷ past) ≡ next_unfinished t (unfinished past) }
    ensures ready { (taken : ℕ) (t : Transferred) (past : List Transferred) → taken ≤ length (complete past)
        → ready taken (t ∷ past) ≡ ready taken past ++ completed (next_delivery t (unfinished past)) }
    ensures taken { (n : ℕ) (past : List Transferred) → ready (n + 1) past ≡ drop 1 (ready n past) }
{}
