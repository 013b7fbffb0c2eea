//! How many entries of its journal an end keeps.

use amqp_shared::{Guard, Name, Shared};

/// Forgets the journal's entries where more stand than are kept.
pub fn make_room<N: Name>(shared: &Shared<N>, guard: &mut Guard<'_, N>, keep: Option<u32>) {
    let stand = guard.conn().logged().journal().len();
    if is_over(stand, keep) {
        shared.forget(guard);
    }
}

/// So many entries are more than are kept.
fn is_over(stand: usize, keep: Option<u32>) -> bool {
    match keep {
        Some(most) => stand > most as usize,
        None => false,
    }
}
