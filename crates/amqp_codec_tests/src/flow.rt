//! Worked examples of serial numbers, windows and credit. They are rows, and helpers that answer yes or no: a test asserts few things.
use amqp_flow::*;

/// A number, what is added, and the sum.
const SUMS: &[(u32, u32, u32)] = &[
    // RFC 1982, 5.2, whose numbers have 8 bits: here the upper ones of 32
    (255 << 24, 1 << 24, 0),
    (100 << 24, 100 << 24, 200 << 24),
    (200 << 24, 100 << 24, 44 << 24),
    // RFC 1982, 3.1: sums wrap to zero
    (0, 1, 1),
    (4294967295, 1, 0),
    (4294967295, 3, 2),
    (2147483648, 2147483648, 0),
];

/// A number, one that may be later, and whether the first is before the second, and this before the first.
const ORDER: &[(u32, u32, bool, bool)] = &[
    // RFC 1982, 5.2
    (0, 1 << 24, true, false),
    (0, 44 << 24, true, false),
    (0, 100 << 24, true, false),
    (44 << 24, 100 << 24, true, false),
    (100 << 24, 200 << 24, true, false),
    (200 << 24, 255 << 24, true, false),
    (255 << 24, 0, true, false),
    (255 << 24, 100 << 24, true, false),
    (200 << 24, 0, true, false),
    (200 << 24, 44 << 24, true, false),
    // RFC 1982, 3.2 and 5: each number is before the next half of the circle, and two opposite ones are not ordered
    (0, 0, false, false),
    (0, 1, true, false),
    (4294967295, 0, true, false),
    (4294967290, 5, true, false),
    (0, 2147483647, true, false),
    (0, 2147483648, false, false),
    (2147483649, 0, true, false),
];

/// A number, the first and last of a range, and whether it is inside.
const RANGES: &[(u32, u32, u32, bool)] = &[
    (5, 5, 5, true),
    (4294967295, 4294967295, 1, true),
    (0, 4294967295, 1, true),
    (1, 4294967295, 1, true),
    (2, 4294967295, 1, false),
    (4294967294, 4294967295, 1, false),
    (4, 3, 5, true),
    (6, 3, 5, false),
    (4, 5, 3, false),
    (7, 0, 2147483647, true),
    (7, 0, 2147483648, false),
];

fn are_sums() -> bool {
    for (from, n, to) in SUMS {
        if Serial(*from).plus(*n) != Serial(*to) {
            return false;
        }
    }
    true
}

fn is_ordered(a: u32, b: u32, before: bool, after: bool) -> bool {
    Serial(a).is_before(Serial(b)) == before && Serial(b).is_before(Serial(a)) == after
}

fn are_ordered() -> bool {
    for (a, b, before, after) in ORDER {
        if !is_ordered(*a, *b, *before, *after) {
            return false;
        }
    }
    true
}

fn are_ranges() -> bool {
    for (x, first, last, inside) in RANGES {
        if Serial(*x).in_range(Serial(*first), Serial(*last)) != *inside {
            return false;
        }
    }
    true
}

fn are_distances() -> bool {
    Serial(4294967295).distance(Serial(2)) == 3
        && Serial(2).distance(Serial(4294967295)) == 4294967293
}

#[test]
fn serials(rt: HostRuntime) {
    assert!(rt; are_sums());
    assert!(rt; are_ordered());
    assert!(rt; are_ranges() && are_distances());
}

fn told(next_incoming_id: Option<u32>, incoming_window: u32) -> SessionFlow {
    SessionFlow {
        next_incoming_id,
        incoming_window,
        next_outgoing_id: 4294967295,
        outgoing_window: 1,
    }
}

fn do_windows_begin() -> bool {
    let mut windows = Windows::new(4294967295, 2);
    let before = windows.next_incoming();
    windows.on_begin(7, 2, 100);
    before == None
        && windows.next_incoming() == Some(7)
        && windows.remote_incoming() == 2
        && windows.remote_outgoing() == 100
}

fn is_early_flow_heard() -> bool {
    let mut early = Windows::new(5, 1);
    early.on_early_flow(&told(Some(77), 3));
    early.remote_incoming() == 3
}

/// The windows of a session that began with the id 4294967295, after two transfers went out; fewer where they may not.
fn after_two() -> Windows {
    let mut windows = Windows::new(4294967295, 2);
    windows.on_begin(7, 2, 100);
    for _ in 0..2 {
        if windows.remote_incoming() > 0 && windows.transfers_sent() < Serial::HALF {
            windows.sent();
        }
    }
    windows
}

fn do_two_go_out() -> bool {
    let windows = after_two();
    windows.next_outgoing() == 1 && windows.remote_incoming() == 0
}

/// The id that the peer awaits, its window, our answer, and how many transfers it takes then.
const FLOWS: &[(Option<u32>, u32, Result<(), CountAhead>, u32)] = &[
    (Some(2), 9, Err(CountAhead), 0),
    // one transfer is on its way
    (Some(0), 9, Ok(()), 8),
    // the peer has not heard our begin: both are
    (None, 9, Ok(()), 7),
    (Some(0), 0, Ok(()), 0),
];

fn is_flow_heard(
    awaited: Option<u32>,
    window: u32,
    answer: Result<(), CountAhead>,
    takes: u32,
) -> bool {
    let mut windows = after_two();
    windows.on_flow(&told(awaited, window)) == answer && windows.remote_incoming() == takes
}

/// Whether two transfers come, as they may, and the window is then renewed.
fn do_two_come() -> bool {
    let mut windows = after_two();
    windows.on_begin(4294967295, 2, 1);
    for _ in 0..2 {
        if windows.incoming() > 0 {
            windows.received();
        }
    }
    let are_heard = windows.next_incoming() == Some(1)
        && windows.incoming() == 0
        && windows.remote_outgoing() == 0;
    windows.renew();
    are_heard && windows.incoming() == 2
}

#[test]
fn windows(rt: HostRuntime) {
    assert!(rt; do_windows_begin() && is_early_flow_heard());
    assert!(rt; do_two_go_out() && do_two_come());
    for (awaited, window, answer, takes) in FLOWS {
        assert!(rt; is_flow_heard(*awaited, *window, *answer, *takes));
    }
}

fn credited(delivery_count: Option<u32>, link_credit: Option<u32>, drain: bool) -> LinkFlow {
    LinkFlow {
        delivery_count,
        link_credit,
        drain,
    }
}

/// Whether three of four deliveries begin.
fn do_three_begin(credit: &mut SenderCredit) -> bool {
    credit.on_flow(&credited(None, Some(4), false)) == Ok(())
        && credit.begin() == Ok(())
        && credit.begin() == Ok(())
        && credit.begin() == Ok(())
        && credit.count() == 1
        && credit.credit() == 1
}

/// Whether flows are heard after that.
fn hears_flows(credit: &mut SenderCredit) -> bool {
    // two deliveries are on their way
    if credit.on_flow(&credited(Some(4294967295), Some(5), true)) != Ok(()) {
        return false;
    }
    if credit.credit() != 3 || !credit.is_draining() {
        return false;
    }
    if credit.on_flow(&credited(Some(2), None, false)) != Err(CountAhead) {
        return false;
    }
    credit.drain();
    credit.count() == 4 && credit.credit() == 0 && !credit.is_draining()
}

/// The credit of a link whose delivery-count began at 4294967294.
fn is_credit_used() -> bool {
    let mut credit = SenderCredit::new(4294967294);
    do_three_begin(&mut credit) && hears_flows(&mut credit)
}

fn is_offered() -> bool {
    let mut offered = SenderCredit::new(0);
    offered.on_early_flow(&credited(Some(77), Some(5), false));
    offered.on_attach(4294967295);
    offered.count() == 4294967295 && offered.credit() == 5
}

#[test]
fn sender(rt: HostRuntime) {
    assert!(rt; SenderCredit::new(0).begin() == Err(NoCredit));
    assert!(rt; is_credit_used());
    assert!(rt; is_offered());
}

/// Whether one of five deliveries that are to be drained begins.
fn does_one_begin(credit: &mut ReceiverCredit) -> bool {
    credit.grant(5, true) == Ok(())
        && credit.begin() == Ok(())
        && credit.count() == 0
        && credit.credit() == 4
}

fn is_granted() -> bool {
    let mut credit = ReceiverCredit::new(4294967295);
    does_one_begin(&mut credit)
        && credit.grant(2147483648, false) == Err(GrantRefusal::BadCredit)
        && credit.grant(3, true) == Err(GrantRefusal::CreditRecedes)
        && credit.grant(6, false) == Err(GrantRefusal::Draining)
}

/// The count that the peer tells after that, our answer, and our count and credit then.
const HEARD: &[(Option<u32>, Result<(), CountAhead>, u32, u32)] = &[
    // older, absent, past the credit, and within it
    (Some(4294967295), Ok(()), 0, 4),
    (None, Ok(()), 0, 4),
    (Some(5), Err(CountAhead), 0, 4),
    (Some(4), Ok(()), 4, 0),
];

fn is_heard(told: Option<u32>, answer: Result<(), CountAhead>, count: u32, left: u32) -> bool {
    let mut credit = ReceiverCredit::new(4294967295);
    does_one_begin(&mut credit)
        && credit.on_flow(&credited(told, None, false)) == answer
        && credit.count() == count
        && credit.credit() == left
}

fn is_attach_heard() -> bool {
    let mut credit = ReceiverCredit::new(0);
    if credit.grant(1, false) != Ok(()) {
        return false;
    }
    credit.on_attach(9);
    credit.first_count() == 9 && credit.credit() == 1
}

#[test]
fn receiver(rt: HostRuntime) {
    assert!(rt; ReceiverCredit::new(0).begin() == Err(NoCredit));
    assert!(rt; is_granted());
    for (told, answer, count, left) in HEARD {
        assert!(rt; is_heard(*told, *answer, *count, *left));
    }
    assert!(rt; is_attach_heard());
}
