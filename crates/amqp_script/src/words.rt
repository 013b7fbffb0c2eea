//! The words of a line, and what a word says by itself.
ghost use Rattle.std.specs.Prelude.{◌≡◌, ◌≢◌, ◌⊎◌, ◌<◌, ◌^◌, ◌∷◌, ◌==◌, [], Some, None, SomeIff, MatchResult, position};
ghost use Rattle.std.specs.Str.Parse.{IsNumeral, digits_value};
ghost use Rattle.amqp_script.specs.Words.{words, octets_of, truth_of};

use crate::line::LineFault;
use amqp_frames::{DeliveryState, Role};
use amqp_types::{Items, Tag, Text};
use amqp_waiting::SuspendedItem;
use std::alloc::Global;

/// The words of a line that were not taken yet. One space stands between two words, so two spaces have an empty word
/// between them.
#[derive(Drop)]
pub struct Words<'a> {
    rest: Option<&'a [u8]>,
}

impl<'a> Words<'a> {
    ghost use Rattle.amqp_script.specs.Left.{left};

    /// All words of the line.
    pub fn of(line: &'a [u8]) -> Words<'a>
        ensures { left result ≡ words line.entry.now }
    {
        Words { rest: Some(line) }
    }

    /// The next word.
    pub fn word(&mut self) -> Result<&'a [u8], LineFault>
        ensures { MatchResult result (λ word. left self.old ≡ word.now ∷ left self.new) (λ e. (e ≡ LineFault.Bad) × (left self.old ≡ [])) }
    {
        self.next().ok_or(LineFault::Bad)
    }

    /// A decimal number of at most 64 bits; leading zeros change nothing.
    pub fn long(&mut self) -> Result<u64, LineFault> {
        long(self.word()?).ok_or(LineFault::Bad)
    }

    /// A decimal number of at most 32 bits.
    pub fn number(&mut self) -> Result<u32, LineFault> {
        number(self.word()?).ok_or(LineFault::Bad)
    }

    /// A decimal number of at most 8 bits.
    pub fn octet(&mut self) -> Result<u8, LineFault> {
        octet(self.word()?).ok_or(LineFault::Bad)
    }

    /// `0` or `1`.
    pub fn truth(&mut self) -> Result<bool, LineFault> {
        truth(self.word()?).ok_or(LineFault::Bad)
    }

    /// `sender` or `receiver`.
    pub fn role(&mut self) -> Result<Role, LineFault> {
        role(self.word()?).ok_or(LineFault::Bad)
    }

    /// `accepted`, `released`, or `-` for none.
    pub fn state(&mut self) -> Result<Option<DeliveryState>, LineFault> {
        state(self.word()?)
    }

    /// A tag in hexadecimal, or `-` for the one without octets.
    pub fn tag(&mut self) -> Result<Tag, LineFault> {
        tag(self.word()?).ok_or(LineFault::Bad)
    }

    /// Deliveries that were put aside, as `TAG:STATE` joined by commas, or `-` for none.
    pub fn items(&mut self, alloc: Global) -> Result<Items<SuspendedItem>, LineFault> {
        items(alloc, self.word()?)
    }

    /// Octets in hexadecimal, or `-` for none.
    pub fn octets(&mut self, alloc: Global) -> Result<Vec<u8>, LineFault> {
        octets(alloc, self.word()?)
    }

    /// The octets of all words that are left, joined to one. An empty word is a fault.
    pub fn joined_octets(mut self, alloc: Global) -> Result<Vec<u8>, LineFault> {
        let first = self.word()?;
        if self.rest.is_none() || first.is_empty() {
            return octets(alloc, first);
        }
        let mut digits = Vec::from_slice(alloc, first)?;
        for word in self {
            if word.is_empty() {
                return Err(LineFault::Bad);
            }
            digits.extend_from_slice(word)?;
        }
        octets(alloc, digits.as_slice())
    }

    /// No word is left.
    pub fn end(self) -> Result<(), LineFault>
        ensures { MatchResult result (λ _. left self.entry ≡ []) (λ e. (e ≡ LineFault.Bad) × (left self.entry ≢ [])) }
    {
        match self.rest {
            Some(_) => Err(LineFault::Bad),
            None => Ok(()),
        }
    }
}

impl<'a> Iterator for Words<'a> {
    ghost use Rattle.std.specs.Iterator.{YieldsFirstBy, item_count};
    ghost use Rattle.amqp_script.specs.Left.{left};

    type Item = &'a [u8];

    ghost next_gives = { YieldsFirstBy (λ word. word.now) left };

    ghost remaining = { item_count left };

    fn next(&mut self) -> Option<&'a [u8]> {
        let rest = self.rest?;
        match first_space(rest) {
            Some(end) => {
                self.rest = Some(&rest[end + 1..]);
                Some(&rest[..end])
            }
            None => {
                self.rest = None;
                Some(rest)
            }
        }
    }
}

/// A text of one octet at least.
pub fn text(alloc: Global, word: &[u8]) -> Result<Text, LineFault> {
    match std::str::from_utf8(word) {
        Ok("") => Err(LineFault::Bad),
        Ok(text) => Ok(Text::new(alloc, text)?),
        Err(_) => Err(LineFault::Bad),
    }
}

fn first_space(line: &[u8]) -> Option<usize>
    ensures { result ≡ position (λ octet. octet == 32) line.now }
{
    line.iter().position(|octet| *octet == b' ')
}

fn long(word: &[u8]) -> Option<u64>
    ensures { SomeIff result (IsNumeral 10 word.now × (digits_value 10 word.now < 2 ^ 64)) (digits_value 10 word.now) }
{
    if word.is_empty() {
        return None;
    }
    let mut value: u64 = 0;
    for octet in word {
        let digit = char::from(*octet).to_digit(10)?;
        value = value.checked_mul(10)?.checked_add(u64::from(digit))?;
    }
    Some(value)
}

fn number(word: &[u8]) -> Option<u32>
    ensures { SomeIff result (IsNumeral 10 word.now × (digits_value 10 word.now < 2 ^ 32)) (digits_value 10 word.now) }
{
    match long(word) {
        Some(value) => u32::try_from(value).ok(),
        None => None,
    }
}

fn octet(word: &[u8]) -> Option<u8>
    ensures { SomeIff result (IsNumeral 10 word.now × (digits_value 10 word.now < 2 ^ 8)) (digits_value 10 word.now) }
{
    match long(word) {
        Some(value) => u8::try_from(value).ok(),
        None => None,
    }
}

fn truth(word: &[u8]) -> Option<bool>
    ensures { result ≡ truth_of word.now }
{
    match word {
        b"0" => Some(false),
        b"1" => Some(true),
        _ => None,
    }
}

fn role(word: &[u8]) -> Option<Role> {
    match word {
        b"sender" => Some(Role::Sender),
        b"receiver" => Some(Role::Receiver),
        _ => None,
    }
}

fn state(word: &[u8]) -> Result<Option<DeliveryState>, LineFault> {
    match word {
        b"-" => Ok(None),
        b"accepted" => Ok(Some(DeliveryState::Accepted)),
        b"released" => Ok(Some(DeliveryState::Released)),
        _ => Err(LineFault::Bad),
    }
}

fn tag(word: &[u8]) -> Option<Tag> {
    match word {
        [] => None,
        b"-" => Tag::new(&[]),
        _ => {
            let mut octets = [0u8; 32];
            let held = octets.get_mut(..word.len() / 2)?;
            hex::decode_to_slice(word, held).ok()?;
            Tag::new(held)
        }
    }
}

/// Each `TAG:STATE` between commas; `-` for none.
fn items(alloc: Global, word: &[u8]) -> Result<Items<SuspendedItem>, LineFault> {
    let mut items = Items::new(alloc);
    if word == b"-".as_slice() {
        return Ok(items);
    }
    for part in word.split(|octet| *octet == b',') {
        items.push(item(part)?)?;
    }
    Ok(items)
}

/// `TAG:STATE`
fn item(part: &[u8]) -> Result<SuspendedItem, LineFault> {
    let colon = part.iter().position(|octet| *octet == b':');
    let Some(colon) = colon else {
        return Err(LineFault::Bad);
    };
    let tag = tag(&part[..colon]).ok_or(LineFault::Bad)?;
    let state = state(&part[colon + 1..])?;
    Ok(SuspendedItem { tag, state })
}

fn octets(alloc: Global, word: &[u8]) -> Result<Vec<u8>, LineFault>
    ensures { MatchResult result (λ octets. octets_of word.now ≡ Some octets.items) (λ e. (e ≡ LineFault.NoMemory) ⊎ ((e ≡ LineFault.Bad) × (octets_of word.now ≡ None))) }
{
    match word {
        [] => Err(LineFault::Bad),
        b"-" => Ok(Vec::new(alloc)),
        _ => match hex::decode(alloc, word) {
            Ok(octets) => Ok(octets),
            Err(hex::FromHexError::OutOfMemory) => Err(LineFault::NoMemory),
            Err(_) => Err(LineFault::Bad),
        },
    }
}
