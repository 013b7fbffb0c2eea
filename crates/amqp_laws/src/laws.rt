//! The laws of journals.
ghost use Rattle.std.specs.Prelude.{ℕ, List, ◌≡◌, ◌≤◌, ◌-◌, ◌^◌, ◌∷◌, []};
ghost use Rattle.amqp_rules.specs.declared.config.Config.{Config};
ghost use Rattle.amqp_rules.specs.Limits.{IsWithinLimits};
ghost use Rattle.amqp_rules.specs.View.{LinkView, initial, free_handle};
ghost use Rattle.amqp_rules.specs.Sound.{Every, IsSound, IsUnfinished, IsLowestFree, IsWaitingApart};
ghost use Rattle.amqp_laws.specs.declared.entry.Entry.{Entry};
ghost use Rattle.amqp_laws.specs.Past.{past, total_since};
ghost use Rattle.amqp_laws.specs.Said.{sends_windows, transfers_heard};
ghost use Rattle.amqp_laws.specs.Windows.{promise};
ghost use Rattle.amqp_laws.specs.Live.{live};
ghost use Rattle.amqp_laws.specs.At.{at};
ghost use Rattle.amqp_laws.specs.Lawful.{IsLawful, NeverWithoutCredit, GoesOn};
ghost use Rattle.amqp_laws.specs.Written.{AreInRange, RepliesAreWritten};
ghost use Rattle.amqp_laws.specs.DeliveryLaws.{AreKept, AreLeft, NeverTwice, SendsSerials};

/// The laws of lawful journals; the crate's root says each in a sentence.
pub fn laws()
    ensures starts { (c : Config) → initial c ≡ at c (past []) }
    ensures goes_on { (c : Config) (journal : List Entry) → IsWithinLimits c → IsLawful c (past journal) → GoesOn c journal }
    ensures sound { (c : Config) (journal : List Entry) → IsWithinLimits c → IsLawful c (past journal) → IsSound (at c (past journal)) }
    ensures unfinished { (c : Config) (journal : List Entry) → IsWithinLimits c → IsLawful c (past journal) → Every IsUnfinished (at c (past journal)).links }
    ensures waiting { (c : Config) (journal : List Entry) → IsWithinLimits c → IsLawful c (past journal) → IsWaitingApart (at c (past journal)) }
    ensures handle { (links : List LinkView) → IsLowestFree links (free_handle links) }
    ensures window { (c : Config) (journal : List Entry) → IsLawful c (past journal)
        → (at c (past journal)).windows.incoming ≡ c.window - total_since sends_windows transfers_heard (live (past journal)) }
    ensures promise { (c : Config) (past : List Entry) (e : Entry) → promise c past ≤ promise c (e ∷ past) }
    ensures credit { (c : Config) (journal : List Entry) → IsLawful c (past journal) → NeverWithoutCredit c journal }
    ensures serials { (c : Config) (journal : List Entry) → IsLawful c (past journal) → SendsSerials c.first_id journal }
    ensures twice { (c : Config) (journal : List Entry) → c.journal_limit ≤ 2 ^ 30 → IsLawful c (past journal) → NeverTwice journal }
    ensures kept { (c : Config) (journal : List Entry) → c.journal_limit ≤ 2 ^ 30 → IsLawful c (past journal) → AreKept (at c (past journal)) }
    ensures left { (c : Config) (journal : List Entry) → c.journal_limit ≤ 2 ^ 30 → IsLawful c (past journal) → AreLeft c journal }
    ensures written { (c : Config) (journal : List Entry) → IsWithinLimits c → IsLawful c (past journal) → AreInRange (past journal) → RepliesAreWritten c journal }
{}
