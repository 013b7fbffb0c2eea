//! Laws of framing: what octets in the place of a frame are, and that the cuts of a stream make no difference.
//!
//! The functions are proofs. They do nothing at run time.
ghost use Rattle.std.specs.Prelude.{◌≡◌, ◌<◌, ◌≤◌, ◌^◌, ℕ, List, None, ◌++◌, length};
ghost use Rattle.amqp_frames.specs.declared.fault.FrameFault.{FrameFault};
ghost use Rattle.amqp_frames.specs.declared.frame.Frame.{Frame};
ghost use Rattle.amqp_frames.specs.Framing.{IsFrame, Shows, IsUnfinished, AreFrames};
ghost use Rattle.amqp_frames.specs.Framer.{BeginsWithFrame};
ghost use Rattle.amqp_performatives.specs.declared.bodies.FlowBody.{FlowBody};
ghost use Rattle.amqp_performatives.specs.declared.bodies.DetachBody.{DetachBody};
ghost use Rattle.amqp_performatives.specs.declared.bodies.EndBody.{EndBody};
ghost use Rattle.amqp_performatives.specs.declared.performative.Performative.TheVariants as said;
ghost use Rattle.amqp_frames.specs.Brief.{IsBriefFlow, IsBrief};

/// Proves that octets in the place of a frame have one meaning.
///
/// They begin with a frame, are unfinished, or show a fault: no two of these, and no two faults. A stream begins with
/// the octets of at most one frame.
pub fn one_answer()
    ensures unfinished { (fault : FrameFault) (max : ℕ) (x : List ℕ) → IsUnfinished max x → Shows fault max x → ⊥ }
    ensures framed { (fault : FrameFault) (f : Frame) (max : ℕ) (x rest : List ℕ) → IsFrame f x → length x ≤ max → Shows fault max (x ++ rest) → ⊥ }
    ensures finished { (f : Frame) (max : ℕ) (x rest : List ℕ) → IsFrame f x → IsUnfinished max (x ++ rest) → ⊥ }
    ensures one_fault { (fault other : FrameFault) (max : ℕ) (x : List ℕ) → Shows fault max x → Shows other max x → fault ≡ other }
    ensures one_front { (f g : Frame) (x y a b : List ℕ) → IsFrame f x → IsFrame g y → x ++ a ≡ y ++ b → x ≡ y }
{}

/// Proves that the frames of a stream do not depend on how it is cut.
///
/// The frames of a piece, and then those of what it left and the next piece, are the frames of both pieces together. A
/// stream has one list of frames and one rest, up to where no frame follows, because the octets are unfinished or show
/// a fault.
pub fn cutting()
    ensures joined { (max : ℕ) (x y r s : List ℕ) (fs gs : List Frame) → AreFrames max x fs r → AreFrames max (r ++ y) gs s → AreFrames max (x ++ y) (fs ++ gs) s }
    ensures unique { (max : ℕ) (x r s : List ℕ) (fs gs : List Frame) → AreFrames max x fs r → (BeginsWithFrame max r → ⊥) → AreFrames max x gs s → (BeginsWithFrame max s → ⊥) → (r ≡ s) × (fs ≡ gs) }
    ensures unfinished { (max : ℕ) (x : List ℕ) → IsUnfinished max x → BeginsWithFrame max x → ⊥ }
    ensures faulty { (fault : FrameFault) (max : ℕ) (x : List ℕ) → Shows fault max x → BeginsWithFrame max x → ⊥ }
{}

/// Proves that octets are at most one frame.
pub fn one_frame()
    ensures { (f g : Frame) (x : List ℕ) → IsFrame f x → IsFrame g x → f ≡ g }
{}

/// Proves that short frames can always be written.
///
/// A flow without properties, a detach without an error and an end without an error take at most 512 octets, which each
/// peer accepts (part 2, 2.4.1).
pub fn always_written()
    ensures flow { (b : FlowBody) → IsBriefFlow b → IsBrief (said.Flow b) }
    ensures detach { (b : DetachBody) → b.handle < 2 ^ 32 → b.error ≡ None → IsBrief (said.Detach b) }
    ensures end { (b : EndBody) → b.error ≡ None → IsBrief (said.End b) }
{}
