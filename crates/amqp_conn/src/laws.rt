//! Laws of a connection, which call nothing.
ghost use Rattle.std.specs.Prelude.{ℕ, List, [], ◌≡◌, ◌++◌, IsTrue, Result, Ok, Err, None};
ghost use Rattle.amqp_conn.specs.declared.fed.Fed.{Fed};
ghost use Rattle.amqp_conn.specs.declared.fault.ConnFault.{ConnFault};
ghost use Rattle.amqp_conn.specs.Connection.{Core, Connection, more, IsQuiet};
ghost use Rattle.amqp_frames.specs.Written.{write_answer};
ghost use Rattle.amqp_rules.specs.Sending.{octets_of};
ghost use Rattle.amqp_rules.specs.ViolationAnswer.{error_of};
ghost use Rattle.amqp_conn.specs.Octets.{close_frame, condition};
ghost use Rattle.amqp_conn.specs.Treating.{ending};
ghost use Rattle.amqp_conn.specs.Saying.{has_met};
ghost use Rattle.amqp_conn.specs.Feeding.{IsFed, Feeds, FeedsInTurn, Ends, AddsEntry, ClosesOnce};

/// States the laws of a connection in its contract, and does nothing.
///
/// However a stream is cut, the connection that it leads to is the same: octets and then further octets lead to what
/// all of them lead to at once (`cut`, `one`, `none`), and so does a loop of feeds (`in_turn`), also if it ends with
/// a fault (`ends`). A feed adds at most one entry to the journal, and returns what that entry gave (`one_entry`).
/// Octets do not change the peer's open once it was received (`peer`). A connection that ends with a fault sends at
/// most one close, with the fault's condition, and adds no entry (`closes`). Each close of its own can be written to
/// every peer (`writable`, `plain`).
pub fn laws()
    ensures cut { (c d e : Connection) (x y : List ℕ) → IsFed c x d → IsFed d y e → IsFed c (x ++ y) e }
    ensures one { (c d e : Connection) (x : List ℕ) → IsFed c x d → IsFed c x e → d ≡ e }
    ensures none { (c : Connection) → IsQuiet c → IsFed c [] c }
    ensures ends { (fault : ConnFault) (c d : Connection) (piece : List ℕ) → Ends fault (more piece c) d → IsFed c piece d }
    ensures in_turn { (calls : List (Result Fed ConnFault)) (c d : Connection) (piece : List ℕ) → IsQuiet c → FeedsInTurn calls c piece d → IsFed c piece d }
    ensures one_entry { (c d : Connection) (piece : List ℕ) (fed : Fed) → Feeds c piece (Ok fed) d → AddsEntry c.core.log.journal d.core.log.journal fed.stepped fed.given }
    ensures peer { (c d : Connection) (x : List ℕ) → IsTrue (has_met c.core.phase) → IsFed c x d → d.core.peer ≡ c.core.peer }
    ensures closes { (fault : ConnFault) (k : Core) → ClosesOnce fault k (ending fault k) }
    ensures writable { (fault : ConnFault) → write_answer (close_frame (error_of (condition fault))) 512 ≡ Ok (octets_of (close_frame (error_of (condition fault)))) }
    ensures plain { write_answer (close_frame None) 512 ≡ Ok (octets_of (close_frame None)) }
{}
