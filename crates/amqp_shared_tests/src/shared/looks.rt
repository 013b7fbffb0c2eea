//! What is looked for in a connection that is lent.

use crate::acts::{Act, made};
use amqp_conn::{Conn, Phase};
use amqp_journal::receipt::Receipt;
use std::alloc::Global;

#[derive(Clone, Copy)]
pub(super) enum Look {
    Phase(Phase),
    /// It runs, its session is begun, and neither end has done anything in it.
    Begun,
    /// So many entries of its journal.
    Entries(usize),
    /// This operation so many entries before the journal's end, where it gave neither a link nor a delivery.
    Stands(Act, u64),
}

/// Whether it is seen.
pub(super) fn sees(alloc: Global, conn: &Conn, look: Look) -> bool {
    match look {
        Look::Phase(phase) => conn.phase() == phase,
        Look::Begun => is_begun(conn),
        Look::Entries(count) => conn.logged().journal().len() == count,
        Look::Stands(act, back) => stands(alloc, conn, act, &receipt_back(conn, back)),
    }
}

/// Whether all of them are.
pub(super) fn sees_all(alloc: Global, conn: &Conn, looks: &[Look]) -> bool {
    for look in looks {
        if !sees(alloc, conn, *look) {
            return false;
        }
    }
    true
}

fn is_begun(conn: &Conn) -> bool {
    let endpoint = conn.logged().endpoint();
    let windows = endpoint.windows();
    conn.phase() == Phase::Running
        && endpoint.status(0).is_none()
        && windows.next_in.is_none()
        && windows.incoming == 2048
        && windows.next_out == 0
        && windows.remote_in == 0
        && windows.remote_out == 0
        && windows.next_delivery == 0
}

/// A receipt for the entry so far before the end.
fn receipt_back(conn: &Conn, back: u64) -> Receipt {
    Receipt {
        place: u64::from(conn.logged().steps()).saturating_sub(back),
        link: None,
        id: None,
    }
}

fn stands(alloc: Global, conn: &Conn, act: Act, receipt: &Receipt) -> bool {
    match made(alloc, act) {
        Some(op) => {
            let stands = conn.logged().stands(&op, receipt);
            drop(op);
            stands
        }
        None => false,
    }
}

/// Each receipt stands for what was done, and no place comes twice.
pub(super) fn all_stand(alloc: Global, conn: &Conn, done: &[(Act, Receipt)]) -> bool {
    let mut free = [true; 128];
    for (act, receipt) in done {
        if !takes_place(&mut free, receipt.place) || !stands(alloc, conn, *act, receipt) {
            return false;
        }
    }
    true
}

/// The place was free, and is no more.
pub(super) fn takes_place(free: &mut [bool], place: u64) -> bool {
    match free.get_mut(place as usize) {
        Some(mark) if *mark => {
            *mark = false;
            true
        }
        _ => false,
    }
}
