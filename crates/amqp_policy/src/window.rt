//! When a session's incoming window is announced again (part 2, 2.5.6).
ghost use Rattle.std.specs.Prelude.{◌↔◌, ◌≤◌, ◌/◌, IsTrue};

/// Returns whether a flow frame is due, because at most half of the window of `window` transfers is left.
pub fn is_window_due(incoming: u32, window: u32) -> bool
    ensures { IsTrue result ↔ (incoming ≤ window / 2) }
{
    incoming <= window / 2
}
