//! The journal of an exchange that goes on over one connection after the other: a file of lines, each of which is written before what depends on it is sent.
use crate::exchange::ExchangeFault;
pub use crate::printout::FileId;
use amqp_conn::{Role, Tag};
use amqp_policy::Outcome;
use std::alloc::Global;
use std::fmt::{Display, Formatter};
use std::fs::{OpenFile, OpenOptions};
use std::io::{ErrorKind, Write};
use std::rt::Files;
use std::{fmt, fs, io};

/// What a line of a journal says.
#[derive(Clone, Copy)]
pub enum Line<'a> {
    /// `sender NAME` or `receiver NAME`: this end of the link with that name, which is in hexadecimal.
    Link(Role, &'a [u8]),
    /// `begun N`: the message with this number begins.
    Begun(u32),
    /// `accepted N`, `rejected N`, `released N`, `modified N` or `unknown N`: the outcome that the receiver sent.
    Told(Outcome, u32),
    /// `output DEVICE INODE`: messages are printed to this file from here on.
    Output(FileId),
    /// `printing TAG N`: the message with this tag is printed next, behind so many bytes of that file. Its sender has it until it is taken.
    Printing(Tag, u64),
    /// `taken TAG N`: the message with this tag, of so many octets, was printed, and is accepted. Its sender asks no more about an earlier one with that tag.
    Taken(Tag, u64),
    /// `settled TAG`: the sender of that message has heard so, or has settled it, and asks no more.
    Settled(Tag),
}

impl Display for Line<'_> {
    fn fmt<W: fmt::Write>(&self, f: &mut Formatter<W>) -> fmt::Result {
        match self {
            Line::Link(role, name) => {
                f.write_str(name_of(*role))?;
                f.write_str(" ")?;
                write_octets(f, name)
            }
            Line::Begun(number) => write!(f, "begun {number}"),
            Line::Told(outcome, number) => write!(f, "{} {number}", word_of(*outcome)),
            Line::Output(file) => write!(f, "output {} {}", file.device, file.inode),
            Line::Printing(tag, length) => {
                f.write_str("printing ")?;
                write_tag(f, tag)?;
                write!(f, " {length}")
            }
            Line::Taken(tag, octets) => {
                f.write_str("taken ")?;
                write_tag(f, tag)?;
                write!(f, " {octets}")
            }
            Line::Settled(tag) => {
                f.write_str("settled ")?;
                write_tag(f, tag)
            }
        }
    }
}

fn name_of(role: Role) -> &'static str {
    match role {
        Role::Sender => "sender",
        Role::Receiver => "receiver",
    }
}

fn word_of(outcome: Outcome) -> &'static str {
    match outcome {
        Outcome::Accepted => "accepted",
        Outcome::Rejected => "rejected",
        Outcome::Released => "released",
        Outcome::Modified => "modified",
        Outcome::Unknown => "unknown",
    }
}

/// Writes digits as they are: a name is kept in hexadecimal.
fn write_octets<W: fmt::Write>(f: &mut Formatter<W>, digits: &[u8]) -> fmt::Result {
    for digit in digits {
        f.write_char(char::from(*digit))?;
    }
    Ok(())
}

/// The tag in hexadecimal, or `-` for the one without octets.
fn write_tag<W: fmt::Write>(f: &mut Formatter<W>, tag: &Tag) -> fmt::Result {
    if tag.octets().is_empty() {
        f.write_str("-")
    } else {
        write!(f, "{tag:?}")
    }
}

/// Returns what the line says, which has no end; `None` if it is no line of a journal.
pub fn read_line(line: &[u8]) -> Option<Line<'_>> {
    let mut words = line.split(|octet| *octet == b' ');
    let kind = words.next()?;
    let first = words.next()?;
    let second = words.next();
    if words.next().is_some() {
        return None;
    }
    match second {
        Some(second) => read_three(kind, first, second),
        None => read_pair(kind, first),
    }
}

fn read_three<'a>(kind: &[u8], first: &[u8], second: &[u8]) -> Option<Line<'a>> {
    let count = count_of(second)?;
    match kind {
        b"output" => Some(Line::Output(FileId {
            device: count_of(first)?,
            inode: count,
        })),
        b"printing" => Some(Line::Printing(tag_of(first)?, count)),
        b"taken" => Some(Line::Taken(tag_of(first)?, count)),
        _ => None,
    }
}

fn read_pair<'a>(kind: &[u8], word: &'a [u8]) -> Option<Line<'a>> {
    match kind {
        b"sender" => Some(Line::Link(Role::Sender, word)),
        b"receiver" => Some(Line::Link(Role::Receiver, word)),
        b"begun" => Some(Line::Begun(number_of(word)?)),
        b"settled" => Some(Line::Settled(tag_of(word)?)),
        _ => Some(Line::Told(outcome_in(kind)?, number_of(word)?)),
    }
}

fn outcome_in(word: &[u8]) -> Option<Outcome> {
    match word {
        b"accepted" => Some(Outcome::Accepted),
        b"rejected" => Some(Outcome::Rejected),
        b"released" => Some(Outcome::Released),
        b"modified" => Some(Outcome::Modified),
        b"unknown" => Some(Outcome::Unknown),
        _ => None,
    }
}

fn count_of(word: &[u8]) -> Option<u64> {
    if word.is_empty() {
        return None;
    }
    let mut value: u64 = 0;
    for octet in word {
        let digit = char::from(*octet).to_digit(10)?;
        value = value.checked_mul(10)?.checked_add(u64::from(digit))?;
    }
    Some(value)
}

fn number_of(word: &[u8]) -> Option<u32> {
    match count_of(word) {
        Some(value) => u32::try_from(value).ok(),
        None => None,
    }
}

fn tag_of(word: &[u8]) -> Option<Tag> {
    if word == b"-".as_slice() {
        return Tag::new(&[]);
    }
    let mut octets = [0u8; Tag::MAX_LEN];
    let held = octets.get_mut(..word.len() / 2)?;
    hex::decode_to_slice(word, held).ok()?;
    Tag::new(held)
}

/// Returns the front of a journal's text that has whole lines: what is behind the last line's end was cut off when a program was killed as it wrote.
pub fn whole_lines(text: &[u8]) -> &[u8] {
    let torn = match text.rsplit(|octet| *octet == b'\n').next() {
        Some(torn) => torn.len(),
        None => 0,
    };
    match text.get(..text.len().saturating_sub(torn)) {
        Some(whole) => whole,
        None => &[],
    }
}

/// Returns whether what was cut off may be the front of a journal's first line, so that nothing of another file is removed.
pub(crate) fn is_front(torn: &[u8]) -> bool {
    for word in ["sender ", "receiver "] {
        let begins = match torn.strip_prefix(word.as_bytes()) {
            Some(name) => name
                .iter()
                .all(|octet| char::from(*octet).to_digit(16).is_some()),
            None => word.as_bytes().starts_with(torn),
        };
        if begins {
            return true;
        }
    }
    false
}

/// Where it is noted what becomes of messages: a [`Journal`].
pub(crate) trait Notes {
    /// Returns how many lines were noted since it was opened.
    fn noted(&self) -> u64;

    /// Continues with the link of this name, for this role of ours.
    ///
    /// # Errors
    ///
    /// `OtherLink` if it was kept of a link of another name, and those of `note`.
    fn join(&mut self, role: Role, name: &str) -> Result<(), ExchangeFault>;

    /// Writes the line behind the others.
    ///
    /// # Errors
    ///
    /// `Journal` if the write fails.
    fn note(&mut self, line: &Line<'_>) -> Result<(), ExchangeFault>;

    /// Brings what was noted to the disk: then it may be sent.
    ///
    /// # Errors
    ///
    /// `Journal` if that fails.
    fn sync(&mut self) -> Result<(), ExchangeFault>;
}

/// A journal that is continued.
#[derive(Drop)]
pub(crate) struct Journal<F> {
    alloc: Global,
    file: F,
    /// The line that is written next.
    line: Vec<u8>,
    /// The name of its link in hexadecimal, once that is known.
    link: Option<Vec<u8>>,
    /// How many lines were noted since it was opened.
    noted: u64,
    /// So many of them are on the disk.
    synced: u64,
}

/// Returns the bytes of the journal there; none if there is no such file yet.
pub(crate) fn text_of<R: AllocGlobal + Files>(
    rt: &R,
    path: &str,
) -> Result<Vec<u8>, ExchangeFault> {
    match fs::read(rt, path) {
        Ok(text) => Ok(text),
        Err(error) if error.kind() == ErrorKind::NotFound => Ok(Vec::new(rt.alloc())),
        Err(error) => Err(ExchangeFault::Journal(error)),
    }
}

/// Opens the journal at this path, keeps so many bytes of its text, and cuts off the others. `link` is the name of its link, in hexadecimal.
pub(crate) fn open_journal<R: AllocGlobal + Files>(
    rt: &R,
    path: &str,
    whole: usize,
    link: Option<Vec<u8>>,
) -> Result<Journal<R::File>, ExchangeFault> {
    match open_file(rt, path, whole) {
        Ok(file) => Ok(Journal::over(rt.alloc(), file, link)),
        Err(error) => {
            drop(link);
            Err(ExchangeFault::Journal(error))
        }
    }
}

fn open_file<R: Files>(rt: &R, path: &str, whole: usize) -> io::Result<R::File> {
    let file = OpenOptions::new().append(true).create(true).open(rt, path)?;
    match file.set_len(whole as u64) {
        Ok(()) => Ok(file),
        Err(error) => {
            drop(file);
            Err(error)
        }
    }
}

/// The name in hexadecimal.
fn digits_of(alloc: Global, name: &str) -> Result<Vec<u8>, ExchangeFault> {
    match hex::encode(alloc, name) {
        Ok(digits) => Ok(digits.into_bytes()),
        Err(_) => Err(ExchangeFault::NoMemory),
    }
}

impl<F> Journal<F> {
    /// Returns a journal in this file, in which nothing was noted since it was opened. `link` is the name of its link, in hexadecimal.
    pub(crate) fn over(alloc: Global, file: F, link: Option<Vec<u8>>) -> Journal<F> {
        Journal {
            alloc,
            file,
            line: Vec::new(alloc),
            link,
            noted: 0,
            synced: 0,
        }
    }
}

impl<F: Write + OpenFile + Drop> Journal<F> {
    /// In one write, so that a line is torn by nothing but a kill in its middle.
    fn write(&mut self, line: &Line<'_>) -> io::Result<()> {
        self.line.clear();
        writeln!(&mut self.line, "{line}")?;
        self.file.write_all(self.line.as_slice())?;
        self.file.flush()
    }

    /// Writes the first line: the link, by its name in hexadecimal.
    fn begin(&mut self, role: Role, digits: Vec<u8>) -> Result<(), ExchangeFault> {
        match self.note(&Line::Link(role, digits.as_slice())) {
            Ok(()) => {
                self.link = Some(digits);
                self.sync()
            }
            fault => {
                drop(digits);
                fault
            }
        }
    }
}

impl<F: Write + OpenFile + Drop> Notes for Journal<F> {
    fn noted(&self) -> u64 {
        self.noted
    }

    fn join(&mut self, role: Role, name: &str) -> Result<(), ExchangeFault> {
        let digits = digits_of(self.alloc, name)?;
        match &self.link {
            Some(link) if link.as_slice() == digits.as_slice() => Ok(()),
            Some(_) => Err(ExchangeFault::OtherLink),
            None => self.begin(role, digits),
        }
    }

    fn note(&mut self, line: &Line<'_>) -> Result<(), ExchangeFault> {
        match self.write(line) {
            Ok(()) => {
                self.noted = self.noted.saturating_add(1);
                Ok(())
            }
            Err(error) => Err(ExchangeFault::Journal(error)),
        }
    }

    fn sync(&mut self) -> Result<(), ExchangeFault> {
        if self.synced == self.noted {
            return Ok(());
        }
        match self.file.sync_data() {
            Ok(()) => {
                self.synced = self.noted;
                Ok(())
            }
            Err(error) => Err(ExchangeFault::Journal(error)),
        }
    }
}
