//! The steps of scripts: the peer's header and frames, and operations of ours. On the link `q`, which the peer calls handle 0, it sends or receives.

use crate::act::{Act, State};
use crate::hostile::peer::Step;
use crate::hostile::peer::Step::{Does, Hears};
use amqp_conn::Role;

// Those of sessions as they should be.
pub(crate) const HEADER: Step = Hears(b"AMQP\x00\x01\x00\x00");

pub(crate) const OPEN: Step = Hears(
    b"\x00\x00\x00\x1a\x02\x00\x00\x00\x00S\x10\xc0\x0d\x04\xa1\x01b@p\x00\x01\x00\x00`\x00\x00",
);

pub(crate) const BEGIN: Step = Hears(
    b"\x00\x00\x00\x1a\x02\x00\x00\x00\x00S\x11\xc0\x0d\x04@Cp\x00\x00\x08\x00p\x7f\xff\xff\xff",
);

/// A begin with handle-max 0.
pub(crate) const NARROW: Step = Hears(
    b"\x00\x00\x00\x1b\x02\x00\x00\x00\x00S\x11\xc0\x0e\x05@Cp\x00\x00\x08\x00p\x7f\xff\xff\xffC",
);

/// Attaches `q` to send, on handle 0.
pub(crate) const SENDS: Step = Hears(
    b"\x00\x00\x00\x1a\x02\x00\x00\x00\x00S\x12\xc0\x0d\x0a\xa1\x01qCB@@@@@@C",
);

/// Attaches `q` to receive, on handle 0.
pub(crate) const RECEIVES: Step = Hears(
    b"\x00\x00\x00\x13\x02\x00\x00\x00\x00S\x12\xc0\x06\x03\xa1\x01qCA",
);

/// The same, with the tag 1 as accepted.
pub(crate) const HOLDS: Step = Hears(
    b"\x00\x00\x00!\x02\x00\x00\x00\x00S\x12\xc0\x14\x08\xa1\x01qCA@@@@\xc1\x08\x02\xa0\x01\x01\x00S$E",
);

/// Five credits.
pub(crate) const CREDIT: Step = Hears(
    b"\x00\x00\x00\x1e\x02\x00\x00\x00\x00S\x13\xc0\x11\x07Cp\x00\x00\x08\x00Cp\x7f\xff\xff\xffCCR\x05",
);

/// Deliveries of one transfer, with the tags 1, 2 and 3.
pub(crate) const WHOLE: Step = Hears(
    b"\x00\x00\x00\x1b\x02\x00\x00\x00\x00S\x14\xc0\x09\x06CC\xa0\x01\x01CBBhello",
);

pub(crate) const SECOND: Step = Hears(
    b"\x00\x00\x00\x1c\x02\x00\x00\x00\x00S\x14\xc0\x0a\x06CR\x01\xa0\x01\x02CBBhello",
);

pub(crate) const THIRD: Step = Hears(
    b"\x00\x00\x00\x1c\x02\x00\x00\x00\x00S\x14\xc0\x0a\x06CR\x02\xa0\x01\x03CBBhello",
);

/// One delivery in three transfers, with the tag 1.
pub(crate) const ONE: Step = Hears(
    b"\x00\x00\x00\x19\x02\x00\x00\x00\x00S\x14\xc0\x09\x06CC\xa0\x01\x01CBAone",
);

pub(crate) const TWO: Step = Hears(
    b"\x00\x00\x00\x17\x02\x00\x00\x00\x00S\x14\xc0\x07\x06C@@@@Atwo",
);

pub(crate) const THREE: Step = Hears(
    b"\x00\x00\x00\x19\x02\x00\x00\x00\x00S\x14\xc0\x07\x06C@@@@Bthree",
);

pub(crate) const ACCEPTED: Step = Hears(
    b"\x00\x00\x00\x16\x02\x00\x00\x00\x00S\x15\xc0\x09\x05ACCA\x00S$E",
);

pub(crate) const SETTLED: Step = Hears(
    b"\x00\x00\x00\x13\x02\x00\x00\x00\x00S\x15\xc0\x06\x04AR\x01@A",
);

pub(crate) const SETTLES: Step = Hears(
    b"\x00\x00\x00\x12\x02\x00\x00\x00\x00S\x15\xc0\x05\x04BCCA",
);

pub(crate) const AWAY: Step = Hears(b"\x00\x00\x00\x0f\x02\x00\x00\x00\x00S\x16\xc0\x02\x01C");

pub(crate) const DETACH: Step = Hears(b"\x00\x00\x00\x10\x02\x00\x00\x00\x00S\x16\xc0\x03\x02CA");

pub(crate) const END: Step = Hears(b"\x00\x00\x00\x0c\x02\x00\x00\x00\x00S\x17E");

pub(crate) const CLOSE: Step = Hears(b"\x00\x00\x00\x0c\x02\x00\x00\x00\x00S\x18E");

// Those that violate.
pub(crate) const NO_LINK_FLOW: Step = Hears(
    b"\x00\x00\x00\x1f\x02\x00\x00\x00\x00S\x13\xc0\x12\x07Cp\x00\x00\x08\x00Cp\x7f\xff\xff\xffR\x07CR\x05",
);

pub(crate) const NO_LINK_TRANSFER: Step = Hears(
    b"\x00\x00\x00\x1c\x02\x00\x00\x00\x00S\x14\xc0\x0a\x06R\x07C\xa0\x01\x01CBBhello",
);

pub(crate) const NO_LINK_DETACH: Step = Hears(
    b"\x00\x00\x00\x11\x02\x00\x00\x00\x00S\x16\xc0\x04\x02R\x07A",
);

pub(crate) const HANDLE_TAKEN: Step = Hears(
    b"\x00\x00\x00\x1a\x02\x00\x00\x00\x00S\x12\xc0\x0d\x0a\xa1\x01zCB@@@@@@C",
);

pub(crate) const NAME_TAKEN: Step = Hears(
    b"\x00\x00\x00\x1b\x02\x00\x00\x00\x00S\x12\xc0\x0e\x0a\xa1\x01qR\x05B@@@@@@C",
);

pub(crate) const TRANSFERS_AHEAD: Step = Hears(
    b"\x00\x00\x00\x1b\x02\x00\x00\x00\x00S\x13\xc0\x0e\x04R\x09p\x00\x00\x08\x00Cp\x7f\xff\xff\xff",
);

pub(crate) const COUNT_AHEAD: Step = Hears(
    b"\x00\x00\x00\x1f\x02\x00\x00\x00\x00S\x13\xc0\x12\x07Cp\x00\x00\x08\x00Cp\x7f\xff\xff\xffCR\x09R\x05",
);

pub(crate) const COUNTLESS: Step = Hears(
    b"\x00\x00\x00\x13\x02\x00\x00\x00\x00S\x12\xc0\x06\x03\xa1\x01qCB",
);

pub(crate) const IDLESS: Step = Hears(
    b"\x00\x00\x00\x14\x02\x00\x00\x00\x00S\x14\xc0\x02\x01Chello",
);

pub(crate) const SKIPS: Step = Hears(
    b"\x00\x00\x00\x1c\x02\x00\x00\x00\x00S\x14\xc0\x0a\x06CR\x05\xa0\x01\x01CBBhello",
);

pub(crate) const OTHER_ID: Step = Hears(
    b"\x00\x00\x00\x18\x02\x00\x00\x00\x00S\x14\xc0\x08\x06CR\x05@@@Btwo",
);

pub(crate) const SAME_TAG: Step = Hears(
    b"\x00\x00\x00\x1c\x02\x00\x00\x00\x00S\x14\xc0\x0a\x06CR\x01\xa0\x01\x01CBBhello",
);

pub(crate) const SENDS_SETTLED: Step = Hears(
    b"\x00\x00\x00\x1b\x02\x00\x00\x00\x00S\x12\xc0\x0e\x0a\xa1\x01qCBP\x01@@@@@C",
);

pub(crate) const BACKWARDS: Step = Hears(
    b"\x00\x00\x00\x13\x02\x00\x00\x00\x00S\x15\xc0\x06\x03AR\x05R\x04",
);

// Those that are a fault.
pub(crate) const OTHER_HEADER: Step = Hears(b"AMQP\x03\x01\x00\x00");

pub(crate) const SHORT: Step = Hears(b"\x00\x00\x00\x07");

pub(crate) const OFFSET: Step = Hears(b"\x00\x00\x00\x0c\x01\x00\x00\x00\x00S\x17E");

pub(crate) const TOO_BIG: Step = Hears(b"\x00\x02\x00\x00\x02\x00\x00\x00");

pub(crate) const KIND: Step = Hears(b"\x00\x00\x00\x0c\x02\x01\x00\x00\x00S\x17E");

pub(crate) const NO_BODY: Step = Hears(b"\x00\x00\x00\x0c\x02\x00\x00\x00\x00S\x19E");

pub(crate) const CUT_LIST: Step = Hears(b"\x00\x00\x00\x0d\x02\x00\x00\x00\x00S\x17\xc0\xff");

pub(crate) const BEHIND_END: Step = Hears(b"\x00\x00\x00\x0d\x02\x00\x00\x00\x00S\x17E\x00");

pub(crate) const ELSEWHERE: Step = Hears(b"\x00\x00\x00\x0c\x02\x00\x00\x01\x00S\x17E");

pub(crate) const OPEN_ELSEWHERE: Step = Hears(
    b"\x00\x00\x00\x11\x02\x00\x00\x01\x00S\x10\xc0\x04\x01\xa1\x01b",
);

// Operations of ours.
pub(crate) const OWN_BEGIN: Step = Does(Act::Begin);

pub(crate) const OWN_SENDER: Step = Does(Act::Bare(Role::Sender, 0));

pub(crate) const OWN_RECEIVER: Step = Does(Act::Bare(Role::Receiver, 0));

/// It takes messages of at most four octets.
pub(crate) const OWN_NARROW: Step = Does(Act::Bare(Role::Receiver, 4));

/// The link `q` as its sender, on which tag 1 was put aside; it then is link 1.
pub(crate) const OWN_REJOIN: Step = Does(Act::Rejoin(Role::Sender, "q", &[(1, State::None)]));

pub(crate) const OWN_RESUME: Step = Does(Act::Resume(1, 1, false));

/// Credits.
pub(crate) const OWN_TWO: Step = Does(Act::Grant(0, 2, false));

pub(crate) const OWN_FIVE: Step = Does(Act::Grant(0, 5, false));

pub(crate) const OWN_SEND: Step = Does(Act::Send(0, 1));

pub(crate) const OWN_TAKE: Step = Does(Act::Take(0));

pub(crate) const OWN_ACCEPT: Step = Does(Act::Dispose(Role::Receiver, 0, 0, true, State::Accepted));

pub(crate) const OWN_LEARN: Step = Does(Act::Learn(0));

pub(crate) const OWN_LEARN_AGAIN: Step = Does(Act::Learn(1));

pub(crate) const OWN_REFRESH: Step = Does(Act::Refresh(false));
