//! Worked examples, and a thousand deliveries whose ids wrap. A table, a payload and what is said are owned by one helper each, over no way out.
use amqp_deliveries::{Disposition, Held, HeldItem, Partial, Parts};
use amqp_performatives::DeliveryState;
use amqp_types::Tag;
use bytes::Bytes;
use std::alloc::{AllocError, Global};

/// Whether what is handed back begins once more, in a table that is as before.
fn begins_again(held: &mut Held, back: HeldItem, before: usize) -> bool {
    if held.len() == before && held.follows(back.id) && !held.holds_tag(back.link, &back.tag) {
        held.add(back).is_ok()
    } else {
        drop(back);
        false
    }
}

/// Whether a delivery begins, as its id and tag may stand. Where it is handed back, it begins once more, if it is to.
pub(crate) fn begins(held: &mut Held, id: u32, link: u32, octets: &[u8], again: bool) -> bool {
    let Some(tag) = Tag::new(octets) else {
        return false;
    };
    let before = held.len();
    if !held.follows(id) || held.holds_tag(link, &tag) {
        return false;
    }
    let item = HeldItem {
        id,
        link,
        tag,
        second: false,
        local: None,
        remote: None,
    };
    match held.add(item) {
        Ok(()) => true,
        Err(back) => {
            if again {
                begins_again(held, back, before)
            } else {
                drop(back);
                false
            }
        }
    }
}

/// What settles these ids, or accepts them.
fn said(first: u32, last: u32, settled: bool) -> Disposition {
    Disposition {
        first,
        last,
        settled,
        state: Some(DeliveryState::Accepted),
    }
}

/// Whether we say that these ids are settled.
fn is_settled(held: &mut Held, first: u32, last: u32) -> bool {
    let settled = said(first, last, true);
    let answer = held.say(&settled).is_ok();
    drop(settled);
    answer
}

/// Whether the peer says that these ids are accepted.
fn is_heard(held: &mut Held, first: u32, last: u32) -> bool {
    let accepted = said(first, last, false);
    let answer = held.hear(&accepted).is_ok();
    drop(accepted);
    answer
}

/// How many are told that these ids are settled, or accepted.
fn told(held: &Held, first: u32, last: u32, settled: bool) -> Option<usize> {
    let said = said(first, last, settled);
    let count = match held.tellings(&said) {
        Ok(tellings) => Some(tellings.len()),
        Err(_) => None,
    };
    drop(said);
    count
}

/// The id at a place.
fn id_at(held: &Held, place: usize) -> Option<u32> {
    match held.at(place) {
        Some(item) => Some(item.id),
        None => None,
    }
}

/// A range that ends twice ends once, and then the link of what is left.
fn ends_once(held: &mut Held) -> bool {
    if !is_settled(held, 4294967295, 0) || !is_settled(held, 4294967295, 0) {
        return false;
    }
    if held.len() != 1 || id_at(held, 0) != Some(1) {
        return false;
    }
    held.end_link(1);
    held.is_empty()
}

/// What was heard is not told again; and with an end of all, a delivery begins anew.
fn is_told_once(held: &mut Held) -> bool {
    if told(held, 0, 1, false) != Some(2) || !is_heard(held, 0, 1) {
        return false;
    }
    if told(held, 4294967295, 1, true) != Some(1) {
        return false;
    }
    held.end_all();
    begins(held, 7, 0, b"\x01", false)
}

/// A tag is in use on its link until its delivery ends.
fn is_tag_in_use(held: &mut Held) -> bool {
    if begins(held, 2, 1, b"\x01", false) {
        return false;
    }
    held.go_on(1, None, true);
    begins(held, 3, 1, b"\x01", false)
}

/// Whether these ids are answered.
fn are_ids(ids: Result<Vec<u32>, AllocError>, expected: &[u32]) -> bool {
    match ids {
        Ok(ids) => ids.as_slice() == expected,
        Err(_) => false,
    }
}

/// Ids are in serial order.
fn are_in_order(held: &Held) -> bool {
    are_ids(held.ids_in(4294967295, 0), &[4294967295, 0])
        && are_ids(held.ids_of(1), &[1])
        && are_ids(held.ids(), &[4294967295, 0, 1])
}

/// Whether the tag at this place has these octets.
fn is_tag(tags: &[Tag], place: usize, octets: &[u8]) -> bool {
    match tags.get(place) {
        Some(tag) => tag.octets() == octets,
        None => false,
    }
}

/// Whether the tags of the first link are those of its two deliveries.
fn are_tags(held: &Held) -> bool {
    match held.tags_of(0) {
        Ok(tags) => {
            tags.len() == 2
                && is_tag(tags.as_slice(), 0, b"\x01")
                && is_tag(tags.as_slice(), 1, b"\x02")
        }
        Err(_) => false,
    }
}

/// The same range, ended by its ids, and not by what is said.
fn ends_once_by_ids(held: &mut Held) -> bool {
    held.end_range(4294967295, 0);
    if !are_ids(held.ids(), &[1]) {
        return false;
    }
    held.end_range(4294967295, 0);
    if !are_ids(held.ids(), &[1]) {
        return false;
    }
    held.end_link(1);
    are_ids(held.ids(), &[])
}

/// All end.
fn all_end(held: &mut Held) -> bool {
    held.end_all();
    are_ids(held.ids(), &[]) && held.find(0).is_none()
}

/// Whether we said of the delivery at this place that it is accepted.
fn is_accepted(held: &Held, place: usize) -> bool {
    match held.at(place) {
        Some(item) => match &item.local {
            Some(DeliveryState::Accepted) => true,
            _ => false,
        },
        None => false,
    }
}

/// Whether the state is set of the second and third delivery alone.
fn sets_two(held: &mut Held) -> bool {
    held.set_local(0, 1, &DeliveryState::Accepted).is_ok()
        && !is_accepted(held, 0)
        && is_accepted(held, 1)
        && is_accepted(held, 2)
}

/// Ids 4294967295, 0 and 1, on links 0, 0 and 1, with tags 01, 02 and 01.
fn three_begin(held: &mut Held) -> bool {
    begins(held, 4294967295, 0, b"\x01", false)
        && begins(held, 0, 0, b"\x02", false)
        && begins(held, 1, 1, b"\x01", false)
}

/// A thousand from id 4294966796 on, on links 0 and 1 in turn, each with its id as its tag; every second ended, one by one.
fn five_hundred_begin(held: &mut Held) -> bool {
    for i in 0..1000u32 {
        let id = 4294966796u32.wrapping_add(i);
        if !begins(held, id, i / 2 % 2, &id.to_be_bytes(), false) {
            return false;
        }
    }
    for i in 0..500u32 {
        let id = 4294966797u32.wrapping_add(2 * i);
        held.go_on(id, None, true);
    }
    true
}

/// Of five hundred, five in a range over the wrap; half of them end, and the second that is left is 2.
fn ends_half(held: &mut Held) -> bool {
    if held.len() != 500 || held.span(4294967291, 5).len() != 5 {
        return false;
    }
    is_settled(held, 4294960000, 4294967295) && held.len() == 250 && id_at(held, 1) == Some(2)
}

/// Whether the tag of these octets is in use on the link.
fn has(held: &Held, link: u32, octets: &[u8]) -> bool {
    match Tag::new(octets) {
        Some(tag) => held.holds_tag(link, &tag),
        None => false,
    }
}

/// Tags of seven, eight and nine octets with one front, and one of eight on a second link.
fn four_begin(held: &mut Held) -> bool {
    begins(held, 4, 0, b"1234567", false)
        && begins(held, 5, 0, b"12345678", false)
        && begins(held, 6, 0, b"123456789", false)
        && begins(held, 7, 1, b"12345678", false)
}

/// Each is in use on its link alone, and the one that ends is not any more.
fn are_lengths_apart(held: &mut Held) -> bool {
    if has(held, 1, b"1234567") || has(held, 0, b"12345679") || has(held, 1, b"123456789") {
        return false;
    }
    held.go_on(5, None, true);
    if has(held, 0, b"12345678") || !has(held, 1, b"12345678") || !has(held, 0, b"1234567") {
        return false;
    }
    held.end_link(1);
    !has(held, 1, b"12345678") && has(held, 0, b"123456789")
}

/// What is asked of a table, with three deliveries but where it is said.
#[derive(Clone, Copy)]
enum Asked {
    EndOnce,
    ToldOnce,
    TagInUse,
    Order,
    Tags,
    EndByIds,
    EndAll,
    SetTwo,
    /// Of five hundred deliveries half end.
    EndHalf,
    /// Of tags of several lengths.
    Lengths,
}

const ASKED: [Asked; 10] = [
    Asked::EndOnce,
    Asked::ToldOnce,
    Asked::TagInUse,
    Asked::Order,
    Asked::Tags,
    Asked::EndByIds,
    Asked::EndAll,
    Asked::SetTwo,
    Asked::EndHalf,
    Asked::Lengths,
];

fn answers(held: &mut Held, asked: Asked) -> bool {
    match asked {
        Asked::EndOnce => three_begin(held) && ends_once(held),
        Asked::ToldOnce => three_begin(held) && is_told_once(held),
        Asked::TagInUse => three_begin(held) && is_tag_in_use(held),
        Asked::Order => three_begin(held) && are_in_order(held),
        Asked::Tags => three_begin(held) && are_tags(held),
        Asked::EndByIds => three_begin(held) && ends_once_by_ids(held),
        Asked::EndAll => three_begin(held) && all_end(held),
        Asked::SetTwo => three_begin(held) && sets_two(held),
        Asked::EndHalf => five_hundred_begin(held) && ends_half(held),
        Asked::Lengths => four_begin(held) && are_lengths_apart(held),
    }
}

/// Whether a table that is empty at first answers as it should.
fn is_answered(alloc: Global, asked: Asked) -> bool {
    let mut held = Held::new(alloc);
    let answer = answers(&mut held, asked);
    drop(held);
    answer
}

#[test]
fn tables(rt: HostRuntime) {
    for asked in ASKED {
        assert!(rt; is_answered(rt.alloc(), asked));
    }
}

/// What becomes of the payloads that came.
enum Last {
    Stay,
    Go,
    /// These octets come, and are retracted.
    Retract(&'static [u8]),
}

/// Payloads that come, what becomes of them, and what joins: so many octets, and these.
struct Joined {
    come: &'static [&'static [u8]],
    last: Last,
    long: u64,
    octets: &'static [u8],
}

const JOINED: &[Joined] = &[
    Joined {
        come: &[],
        last: Last::Stay,
        long: 0,
        octets: b"",
    },
    Joined {
        come: &[b"\x78", b"", b"\x79"],
        last: Last::Retract(b"\x7a"),
        long: 2,
        octets: b"\x78\x79",
    },
    Joined {
        come: &[b"\x78", b"\x79"],
        last: Last::Go,
        long: 0,
        octets: b"",
    },
    Joined {
        come: &[b"\x78", b"\x79"],
        last: Last::Stay,
        long: 2,
        octets: b"\x78\x79",
    },
    Joined {
        come: &[b"\x78"],
        last: Last::Retract(b"\x79"),
        long: 1,
        octets: b"\x78",
    },
];

/// Whether a payload comes; where it is refused, as many octets as before are there, and it comes again, if it is to.
pub(crate) fn comes(partial: &mut Partial, payload: &'static [u8], again: bool) -> bool {
    let before = partial.len();
    if partial.append(Bytes::from_static(payload)).is_ok() {
        return true;
    }
    again && partial.len() == before && partial.append(Bytes::from_static(payload)).is_ok()
}

fn is_last(partial: &mut Partial, last: &Last) -> bool {
    match last {
        Last::Stay => true,
        Last::Go => {
            partial.drop_all();
            true
        }
        Last::Retract(octets) => match partial.append(Bytes::from_static(octets)) {
            Ok(()) => {
                partial.retract();
                true
            }
            Err(_) => false,
        },
    }
}

/// Whether the payloads so far have so many octets and join to these; where it is refused, they are joined again, if they are to.
pub(crate) fn joins(partial: &mut Partial, long: u64, octets: &[u8], again: bool) -> bool {
    let parts = partial.finish();
    let joined = match parts.join() {
        Err(_) if again => parts.join(),
        joined => joined,
    };
    let is_long = parts.len() == long;
    drop(parts);
    match joined {
        Ok(joined) => is_long && joined.as_slice() == octets,
        Err(_) => false,
    }
}

fn is_joined(partial: &mut Partial, row: &Joined) -> bool {
    for payload in row.come {
        if !comes(partial, payload, false) {
            return false;
        }
    }
    is_last(partial, &row.last) && joins(partial, row.long, row.octets, false)
}

/// Whether a row joins where nothing came before.
fn is_joined_alone(alloc: Global, row: &Joined) -> bool {
    let mut partial = Partial::start(alloc);
    let is_joined = is_joined(&mut partial, row);
    drop(partial);
    is_joined
}

/// How many rows join one after the other.
fn joined_in_turn(alloc: Global) -> usize {
    let mut partial = Partial::start(alloc);
    let mut joined = 0usize;
    for row in JOINED {
        if is_joined(&mut partial, row) {
            joined = joined.wrapping_add(1);
        }
    }
    drop(partial);
    joined
}

#[test]
fn payloads_join(rt: HostRuntime) {
    for row in JOINED {
        assert!(rt; is_joined_alone(rt.alloc(), row));
    }
    assert!(rt; joined_in_turn(rt.alloc()) == JOINED.len());
}

/// Whether the slices, one after the other, are these octets.
fn are_slices(parts: &Parts, octets: &[u8]) -> bool {
    let mut from = 0usize;
    for _ in 0..=octets.len() {
        let slice = parts.slice_from(from as u64);
        let Some(others) = octets.get(from..) else {
            return false;
        };
        if !others.starts_with(slice) {
            return false;
        }
        from = from.saturating_add(slice.len());
    }
    from == octets.len()
}

fn is_copied(parts: &Parts) -> bool {
    match parts.clone() {
        Ok(copy) => {
            let is_same = copy == *parts;
            drop(copy);
            is_same
        }
        Err(_) => false,
    }
}

/// Whether a payload is the same as these octets in one slice, and as no others.
fn is_just(alloc: Global, parts: &Parts, octets: &'static [u8]) -> bool {
    let whole = Parts::one(alloc, Bytes::from_static(octets));
    let other = Parts::one(alloc, Bytes::from_static(b"xz"));
    let is_so = *parts == whole && whole == *parts && *parts != other && other != *parts;
    drop(whole);
    drop(other);
    is_so && parts.is(octets) && !parts.is(b"xz")
}

fn is_its_octets(alloc: Global, row: &Joined) -> bool {
    let mut partial = Partial::start(alloc);
    for payload in row.come {
        if !comes(&mut partial, payload, false) {
            return false;
        }
    }
    let has_last = is_last(&mut partial, &row.last);
    let parts = partial.finish();
    drop(partial);
    let is_so = is_just(alloc, &parts, row.octets)
        && are_slices(&parts, row.octets)
        && is_copied(&parts);
    drop(parts);
    has_last && is_so
}

/// However it is cut.
#[test]
fn a_payload_is_its_octets(rt: HostRuntime) {
    for row in JOINED {
        assert!(rt; is_its_octets(rt.alloc(), row));
    }
}
