//! The laws of worlds.
ghost use Rattle.std.specs.Prelude.{ℕ, List, None, Some, ◌≡◌, ◌<◌, false, true, find, option_map};
ghost use Rattle.amqp_frames.specs.declared.frame.Frame.{Frame};
ghost use Rattle.amqp_performatives.specs.declared.bodies.TransferBody.{TransferBody};
ghost use Rattle.amqp_performatives.specs.declared.performative.Performative.TheVariants.{Transfer};
ghost use Rattle.amqp_rules.specs.declared.config.Config.{Config};
ghost use Rattle.amqp_rules.specs.View.{LinkView, has_peer_handle, is_over, next_delivery};
ghost use Rattle.amqp_rules.specs.PeerTransfer.{receives};
ghost use Rattle.amqp_laws.specs.declared.entry.Entry.{Entry};
ghost use Rattle.amqp_laws.specs.Live.{live};
ghost use Rattle.amqp_laws.specs.At.{at};
ghost use Rattle.amqp_pair_laws.specs.Premise.{ids_heard, ids_sent};
ghost use Rattle.amqp_pair_laws.specs.World.{World, Tight};
ghost use Rattle.amqp_pair_laws.specs.States.{HasWhatItSaid, HearsWhatWasSaid};
ghost use Rattle.amqp_pair_laws.specs.Learns.{LearnsWhatWasSaid};
ghost use Rattle.amqp_pair_laws.specs.Taken.{IsNext, NextIsTaken};
ghost use Rattle.amqp_pair_laws.specs.Agreeing.{CountsAgree, CreditIsKept, DrainsAgree, HearingEnds, LinksAgree, SessionsAgree, UnsettledAgree, WindowReopens, WindowsAgree};
ghost use Rattle.amqp_pair_laws.specs.Takes.{TakesAll, TakesEver, TakesOnAttached, TakesWhatWasSent};

/// The laws of worlds; the crate's root says each in a sentence.
pub fn laws()
    ensures taken { NextIsTaken }
    ensures sent { TakesWhatWasSent }
    ensures ever { TakesEver }
    ensures only { TakesOnAttached }
    ensures all { TakesAll }
    ensures states { HearsWhatWasSaid }
    ensures own { HasWhatItSaid }
    ensures learnt { LearnsWhatWasSaid }
    ensures window { (ca cb : Config) (n : ℕ) (a b : List Entry) (f : Frame) (t : TransferBody) → World ca cb n a b → IsNext f a b → f.body ≡ Some (Transfer t)
        → is_over (at cb b).session ≡ false → 0 < (at cb b).windows.incoming }
    ensures link { (ca cb : Config) (n : ℕ) (a b : List Entry) (f : Frame) (t : TransferBody) → World ca cb n a b → IsNext f a b → f.body ≡ Some (Transfer t)
        → is_over (at cb b).session ≡ false → option_map receives (find (has_peer_handle t.handle) (at cb b).links) ≡ Some true }
    ensures credit { (ca cb : Config) (n : ℕ) (a b : List Entry) (f : Frame) (t : TransferBody) (l : LinkView) → World ca cb n a b → IsNext f a b → f.body ≡ Some (Transfer t)
        → is_over (at cb b).session ≡ false → find (has_peer_handle t.handle) (at cb b).links ≡ Some l → l.left ≡ false → l.receiving ≡ None → 0 < l.credit.credit }
    ensures begun { (ca cb : Config) (n : ℕ) (a b : List Entry) → Tight ca cb n a b → (at cb b).session.begin_heard ≡ (at ca a).session.begin_sent }
    ensures lives { (ca cb : Config) (n : ℕ) (a b : List Entry) → Tight ca cb n a b → is_over (at cb b).session ≡ false → is_over (at ca a).session ≡ false }
    ensures ids { (ca cb : Config) (n : ℕ) (a b : List Entry) → Tight ca cb n a b → is_over (at cb b).session ≡ false → ids_heard (live b) ≡ ids_sent (live a) }
    ensures expected { (ca cb : Config) (n : ℕ) (a b : List Entry) (id : ℕ) → Tight ca cb n a b → is_over (at cb b).session ≡ false → (at cb b).expected ≡ Some id → id ≡ next_delivery (at ca a) }
    ensures sessions { SessionsAgree }
    ensures windows { WindowsAgree }
    ensures links { LinksAgree }
    ensures counts { CountsAgree }
    ensures unsettled { UnsettledAgree }
    ensures drains { DrainsAgree }
    ensures granted { CreditIsKept }
    ensures reopens { WindowReopens }
    ensures ends { HearingEnds }
{}
