//! The frame that comes next.
ghost use Rattle.std.specs.Prelude.{◌≡◌, ◌≤◌, ◌<◌, length, take, option_map, slice_get, IfSome, Some};
ghost use Rattle.amqp_laws.specs.Past.{past};
ghost use Rattle.amqp_pair_laws.specs.Moves.{count, said_as};
ghost use Rattle.amqp_pair_laws.specs.World.{sends};

use amqp_frames::Frame;
use amqp_journal::entry::Entry;
use amqp_journal::logged::Logged;

/// The first frame that these entries send at the place or behind it; the place is then that of its entry, or behind all where there is none. Over all calls
/// each entry is looked at once, but for the last.
pub(crate) fn next_frame<'a>(entries: &'a [Entry], place: &mut usize) -> Option<&'a Frame>
    requires { place.old ≤ length entries.now }
    ensures next { option_map (λ f. f.now) result ≡ said_as sends (count sends (past (take place.old entries.now))) (past entries.now) }
    ensures within { place.new ≤ length entries.now }
    ensures all { count sends (past (take place.new entries.now)) ≡ count sends (past (take place.old entries.now)) }
    ensures there { IfSome result (λ f. (e : Entry) × (slice_get entries.now place.new ≡ Some e) × (sends e ≡ Some f.now)) }
{
    for i in *place..entries.len() {
        if let Some(frame) = frame_of(&entries[i]) {
            *place = i;
            return Some(frame);
        }
    }
    *place = entries.len();
    None
}

/// All entries of a journal that forgot none.
pub(crate) fn whole(logged: &Logged) -> &[Entry]
    requires { logged.now.forgotten ≡ 0 }
    ensures { result.now ≡ logged.now.journal }
{
    logged.journal()
}

/// The frame with a body that the entry's reply sends, if any.
fn frame_of(entry: &Entry) -> Option<&Frame>
    ensures { option_map (λ f. f.now) result ≡ sends entry.now }
{
    for sent in entry.reply.sent.as_slice() {
        if sent.frame.body.is_some() {
            return Some(&sent.frame);
        }
    }
    None
}
