//! The fields of a described list (part 1, 1.4), read one after the other where they lie: nothing is copied and no memory taken.
ghost use Rattle.std.specs.Prelude.{◌≡◌, ◌≤◌, ◌+◌, ℕ, Some, IfSome, IsTrue, option_map, nat_le, length, drop};

use crate::borrowed::ValueRef;
use amqp_performatives::Role;
use amqp_types::{
    Class, Tag, class_of, read_binary, read_boolean, read_null, read_string, read_symbol,
    read_ubyte, read_uint, read_ulong, read_ushort, skip_within,
};

/// The fields that are still to be read.
#[derive(Clone, Copy)]
pub(crate) struct Cursor<'a> {
    /// How deep their values may be nested.
    pub(crate) depth: usize,
    /// How many there are. A field past them was left off.
    pub(crate) left: usize,
    pub(crate) octets: &'a [u8],
    ghost some: { 1 ≤ depth },
    ghost most: { depth ≤ 32 },
}

/// Leaves the tag of these octets in the slot, where it is written once.
#[inline(always)]
fn set_tag(octets: &[u8], slot: &mut Option<Tag>)
    requires { length octets.now ≤ 32 }
    ensures { slot.new ≡ Some octets.now }
{
    *slot = Some(Tag::empty());
    if let Some(tag) = slot {
        tag.set(octets);
    }
}

impl<'a> Cursor<'a> {
    ghost use Rattle.amqp_performatives.specs.Bodies.{boolean, ubyte, ushort, uint, ulong, binary, string, symbol, mapping, any, role, optional};
    ghost use Rattle.amqp_performatives.specs.Fair.{where_present, is_present, is_tag};
    ghost use Rattle.amqp_decoder.specs.Borrowed.{value_in, pairs_in};
    ghost use Rattle.amqp_decoder.specs.Reading.{Reads, ReadsAbsent, ReadsValue, every};

    /// The fields after the first one, which so many octets spell.
    #[inline(always)]
    pub(crate) fn after(self, used: usize) -> Cursor<'a>
        requires some { 1 ≤ self.left }
        requires within { used ≤ length self.octets.now }
        ensures { (result.depth ≡ self.entry.depth) × (result.left + 1 ≡ self.entry.left) × (result.octets.now ≡ drop used self.entry.octets.now) }
    {
        Cursor {
            depth: self.depth,
            left: self.left - 1,
            octets: &self.octets[used..],
        }
    }

    /// The fields after the first one, where that is left off or null.
    #[inline(always)]
    pub(crate) fn absent(self) -> Option<Cursor<'a>>
        ensures { ReadsAbsent self.entry result }
    {
        if self.left == 0 {
            return Some(self);
        }
        match read_null(self.octets) {
            Some(used) => Some(self.after(used)),
            None => None,
        }
    }

    /// A uint that is mandatory.
    #[inline(always)]
    pub(crate) fn required_uint(self) -> Option<(u32, Cursor<'a>)>
        ensures { Reads uint every self.entry result }
    {
        if self.left == 0 {
            return None;
        }
        match read_uint(self.octets) {
            Some((value, used)) => Some((value, self.after(used))),
            None => None,
        }
    }

    /// A ulong that is mandatory.
    #[inline]
    pub(crate) fn required_ulong(self) -> Option<(u64, Cursor<'a>)>
        ensures { Reads ulong every self.entry result }
    {
        if self.left == 0 {
            return None;
        }
        match read_ulong(self.octets) {
            Some((value, used)) => Some((value, self.after(used))),
            None => None,
        }
    }

    /// A ushort that is mandatory.
    #[inline]
    fn required_ushort(self) -> Option<(u16, Cursor<'a>)>
        ensures { Reads ushort every self.entry result }
    {
        if self.left == 0 {
            return None;
        }
        match read_ushort(self.octets) {
            Some((value, used)) => Some((value, self.after(used))),
            None => None,
        }
    }

    /// A boolean that is mandatory.
    #[inline(always)]
    fn required_boolean(self) -> Option<(bool, Cursor<'a>)>
        ensures { Reads boolean every self.entry result }
    {
        if self.left == 0 {
            return None;
        }
        match read_boolean(self.octets) {
            Some((value, used)) => Some((value, self.after(used))),
            None => None,
        }
    }

    /// A string that is mandatory.
    #[inline]
    pub(crate) fn required_string(self) -> Option<(&'a str, Cursor<'a>)>
        ensures { Reads string every self.entry (option_map (λ r. (r.0.now, r.1)) result) }
    {
        if self.left == 0 {
            return None;
        }
        match read_string(self.octets) {
            Some((value, used)) => Some((value, self.after(used))),
            None => None,
        }
    }

    /// A symbol that is mandatory.
    #[inline]
    pub(crate) fn required_symbol(self) -> Option<(&'a str, Cursor<'a>)>
        ensures { Reads symbol every self.entry (option_map (λ r. (r.0.now, r.1)) result) }
    {
        if self.left == 0 {
            return None;
        }
        match read_symbol(self.octets) {
            Some((value, used)) => Some((value, self.after(used))),
            None => None,
        }
    }

    /// A uint.
    #[inline(always)]
    pub(crate) fn uint(self) -> Option<(Option<u32>, Cursor<'a>)>
        ensures { Reads (optional uint) (where_present every) self.entry result }
    {
        match self.absent() {
            Some(others) => Some((None, others)),
            None => match self.required_uint() {
                Some((value, others)) => Some((Some(value), others)),
                None => None,
            },
        }
    }

    /// A ulong.
    #[inline]
    pub(crate) fn ulong(self) -> Option<(Option<u64>, Cursor<'a>)>
        ensures { Reads (optional ulong) (where_present every) self.entry result }
    {
        match self.absent() {
            Some(others) => Some((None, others)),
            None => match self.required_ulong() {
                Some((value, others)) => Some((Some(value), others)),
                None => None,
            },
        }
    }

    /// A ushort.
    #[inline]
    pub(crate) fn ushort(self) -> Option<(Option<u16>, Cursor<'a>)>
        ensures { Reads (optional ushort) (where_present every) self.entry result }
    {
        match self.absent() {
            Some(others) => Some((None, others)),
            None => match self.required_ushort() {
                Some((value, others)) => Some((Some(value), others)),
                None => None,
            },
        }
    }

    /// A boolean.
    #[inline(always)]
    pub(crate) fn boolean(self) -> Option<(Option<bool>, Cursor<'a>)>
        ensures { Reads (optional boolean) (where_present every) self.entry result }
    {
        match self.absent() {
            Some(others) => Some((None, others)),
            None => match self.required_boolean() {
                Some((value, others)) => Some((Some(value), others)),
                None => None,
            },
        }
    }

    /// A string.
    #[inline]
    pub(crate) fn string(self) -> Option<(Option<&'a str>, Cursor<'a>)>
        ensures { Reads (optional string) (where_present every) self.entry (option_map (λ r. (option_map (λ t. t.now) r.0, r.1)) result) }
    {
        match self.absent() {
            Some(others) => Some((None, others)),
            None => match self.required_string() {
                Some((value, others)) => Some((Some(value), others)),
                None => None,
            },
        }
    }

    /// A settle mode that is there (part 2, 2.8.2 and 2.8.3): at most this number.
    #[inline(always)]
    fn required_mode(self, most: u8) -> Option<(u8, Cursor<'a>)>
        ensures { Reads ubyte (λ n. nat_le n most) self.entry result }
    {
        if self.left == 0 {
            return None;
        }
        match read_ubyte(self.octets) {
            Some((value, used)) => if value <= most {
                Some((value, self.after(used)))
            } else {
                None
            },
            None => None,
        }
    }

    /// A settle mode: at most this number.
    #[inline(always)]
    pub(crate) fn mode(self, most: u8) -> Option<(Option<u8>, Cursor<'a>)>
        ensures { Reads (optional ubyte) (where_present (λ (n : ℕ). nat_le n most)) self.entry result }
    {
        match self.absent() {
            Some(others) => Some((None, others)),
            None => match self.required_mode(most) {
                Some((value, others)) => Some((Some(value), others)),
                None => None,
            },
        }
    }

    /// The octets of a delivery tag that is there: a binary of at most 32 octets (part 2, 2.8.7).
    #[inline(always)]
    fn required_tag(self) -> Option<(&'a [u8], Cursor<'a>)>
        ensures reads { Reads binary is_tag self.entry (option_map (λ r. (r.0.now, r.1)) result) }
        ensures short { IfSome result (λ r. length r.0.now ≤ 32) }
    {
        if self.left == 0 {
            return None;
        }
        match read_binary(self.octets) {
            Some((octets, used)) => if octets.len() <= Tag::MAX_LEN {
                Some((octets, self.after(used)))
            } else {
                None
            },
            None => None,
        }
    }

    /// A delivery tag, left in the slot.
    #[inline(always)]
    pub(crate) fn tag_into(self, slot: &mut Option<Tag>) -> Option<Cursor<'a>>
        ensures { Reads (optional binary) (where_present is_tag) self.entry (option_map (λ others. (slot.new, others)) result) }
    {
        match self.absent() {
            Some(others) => {
                *slot = None;
                Some(others)
            }
            None => match self.required_tag() {
                Some((octets, others)) => {
                    set_tag(octets, slot);
                    Some(others)
                }
                None => None,
            },
        }
    }

    /// A role, which is mandatory (part 2, 2.8.1).
    #[inline(always)]
    pub(crate) fn role(self) -> Option<(Role, Cursor<'a>)>
        ensures { Reads role every self.entry result }
    {
        match self.required_boolean() {
            Some((true, others)) => Some((Role::Receiver, others)),
            Some((false, others)) => Some((Role::Sender, others)),
            None => None,
        }
    }

    /// A value of whatever type, null too.
    pub(crate) fn value(self) -> Option<(ValueRef<'a>, Cursor<'a>)>
        ensures { ReadsValue self.entry (option_map (λ r. (r.0.octets.now, r.1)) result) }
    {
        if self.left == 0 {
            return None;
        }
        match skip_within(self.depth as u8, self.octets) {
            Some(used) => Some((
                ValueRef {
                    octets: &self.octets[..used],
                },
                self.after(used),
            )),
            None => None,
        }
    }

    /// A value of whatever type.
    #[inline(always)]
    pub(crate) fn any(self) -> Option<(Option<ValueRef<'a>>, Cursor<'a>)>
        ensures { Reads (optional any) (where_present is_present) self.entry (option_map (λ r. (option_map (λ v. value_in v.octets.now) r.0, r.1)) result) }
    {
        match self.absent() {
            Some(others) => Some((None, others)),
            None => match self.value() {
                Some((value, others)) => Some((Some(value), others)),
                None => None,
            },
        }
    }

    /// A map.
    pub(crate) fn map(self) -> Option<(Option<ValueRef<'a>>, Cursor<'a>)>
        ensures { Reads (optional mapping) (where_present every) self.entry (option_map (λ r. (option_map (λ v. pairs_in v.octets.now) r.0, r.1)) result) }
    {
        match self.absent() {
            Some(others) => Some((None, others)),
            None => match self.value() {
                Some((value, others)) => if value.is_map() {
                    Some((Some(value), others))
                } else {
                    None
                },
                None => None,
            },
        }
    }
}
