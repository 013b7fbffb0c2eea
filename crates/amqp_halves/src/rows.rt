//! The fields of each composite type, by what they may hold (part 2, 2.7 and 2.8.14; part 3, 3.4).
ghost use Rattle.std.specs.Prelude.{◌≡◌};
ghost use Rattle.amqp_halves.specs.Rows.{rows_of};

use amqp_performatives::Composite;

/// What a field may hold.
#[derive(Clone, Copy)]
pub(crate) enum Sort {
    Boolean,
    /// A boolean, too.
    Role,
    /// At most this number.
    Ubyte(u8),
    Ushort,
    Uint,
    Ulong,
    /// A binary of at most 32 octets (part 2, 2.8.7).
    Tag,
    Str,
    Symbol,
    Map,
    /// A value of whatever type, but null.
    Any,
    Error,
    State,
}

/// A field, which is mandatory or not.
#[derive(Clone, Copy)]
pub(crate) enum Row {
    Must(Sort),
    May(Sort),
}

const OPEN: [Row; 10] = [
    Row::Must(Sort::Str),
    Row::May(Sort::Str),
    Row::May(Sort::Uint),
    Row::May(Sort::Ushort),
    Row::May(Sort::Uint),
    Row::May(Sort::Any),
    Row::May(Sort::Any),
    Row::May(Sort::Any),
    Row::May(Sort::Any),
    Row::May(Sort::Any),
];

const BEGIN: [Row; 8] = [
    Row::May(Sort::Ushort),
    Row::Must(Sort::Uint),
    Row::Must(Sort::Uint),
    Row::Must(Sort::Uint),
    Row::May(Sort::Uint),
    Row::May(Sort::Any),
    Row::May(Sort::Any),
    Row::May(Sort::Any),
];

const ATTACH: [Row; 14] = [
    Row::Must(Sort::Str),
    Row::Must(Sort::Uint),
    Row::Must(Sort::Role),
    Row::May(Sort::Ubyte(2)),
    Row::May(Sort::Ubyte(1)),
    Row::May(Sort::Any),
    Row::May(Sort::Any),
    Row::May(Sort::Map),
    Row::May(Sort::Boolean),
    Row::May(Sort::Uint),
    Row::May(Sort::Ulong),
    Row::May(Sort::Any),
    Row::May(Sort::Any),
    Row::May(Sort::Any),
];

const FLOW: [Row; 11] = [
    Row::May(Sort::Uint),
    Row::Must(Sort::Uint),
    Row::Must(Sort::Uint),
    Row::Must(Sort::Uint),
    Row::May(Sort::Uint),
    Row::May(Sort::Uint),
    Row::May(Sort::Uint),
    Row::May(Sort::Uint),
    Row::May(Sort::Boolean),
    Row::May(Sort::Boolean),
    Row::May(Sort::Any),
];

const TRANSFER: [Row; 11] = [
    Row::Must(Sort::Uint),
    Row::May(Sort::Uint),
    Row::May(Sort::Tag),
    Row::May(Sort::Uint),
    Row::May(Sort::Boolean),
    Row::May(Sort::Boolean),
    Row::May(Sort::Ubyte(1)),
    Row::May(Sort::State),
    Row::May(Sort::Boolean),
    Row::May(Sort::Boolean),
    Row::May(Sort::Boolean),
];

const DISPOSITION: [Row; 6] = [
    Row::Must(Sort::Role),
    Row::Must(Sort::Uint),
    Row::May(Sort::Uint),
    Row::May(Sort::Boolean),
    Row::May(Sort::State),
    Row::May(Sort::Boolean),
];

const DETACH: [Row; 3] = [
    Row::Must(Sort::Uint),
    Row::May(Sort::Boolean),
    Row::May(Sort::Error),
];

const ERROR: [Row; 3] = [
    Row::Must(Sort::Symbol),
    Row::May(Sort::Str),
    Row::May(Sort::Any),
];

/// End, close and rejected.
const LONE_ERROR: [Row; 1] = [Row::May(Sort::Error)];

const RECEIVED: [Row; 2] = [Row::Must(Sort::Uint), Row::Must(Sort::Ulong)];

const MODIFIED: [Row; 3] = [
    Row::May(Sort::Boolean),
    Row::May(Sort::Boolean),
    Row::May(Sort::Any),
];

/// The table.
pub(crate) fn rows_of(composite: Composite) -> &'static [Row]
    ensures { result.now ≡ rows_of composite }
{
    match composite {
        Composite::Open => &OPEN,
        Composite::Begin => &BEGIN,
        Composite::Attach => &ATTACH,
        Composite::Flow => &FLOW,
        Composite::Transfer => &TRANSFER,
        Composite::Disposition => &DISPOSITION,
        Composite::Detach => &DETACH,
        Composite::End => &LONE_ERROR,
        Composite::Close => &LONE_ERROR,
        Composite::Error => &ERROR,
        Composite::Received => &RECEIVED,
        Composite::Accepted => &[],
        Composite::Rejected => &LONE_ERROR,
        Composite::Released => &[],
        Composite::Modified => &MODIFIED,
    }
}
