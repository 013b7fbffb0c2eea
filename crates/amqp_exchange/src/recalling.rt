//! What a journal says of earlier runs.
use crate::exchange::ExchangeFault;
use crate::journal::{Journal, Line, is_front, open_journal, read_line, text_of, whole_lines};
use amqp_conn::Role;
use std::alloc::Global;
use std::rt::Files;

/// Takes each line of a journal behind the first one, in order.
pub(crate) trait Recalls {
    /// Takes the next line. False if there can be no such line behind those before.
    fn recall(&mut self, line: &Line<'_>) -> Result<bool, ExchangeFault>;
}

/// Opens the journal at this path, of a link on which we have this role, and hands each of its lines to `to`.
///
/// # Errors
///
/// `NoLine` if one is none, and those of `recall`: then the file stays as it is. `Journal` if it cannot be read or opened.
pub(crate) fn recall_journal<R: AllocGlobal + Files, T: Recalls>(
    rt: &R,
    path: &str,
    role: Role,
    to: &mut T,
) -> Result<Journal<R::File>, ExchangeFault> {
    let text = text_of(rt, path)?;
    let mut link: Option<Vec<u8>> = None;
    let recalled = recall_all(rt.alloc(), text.as_slice(), role, &mut link, to);
    drop(text);
    match recalled {
        Ok(whole) => open_journal(rt, path, whole, link),
        Err(fault) => {
            drop(link);
            Err(fault)
        }
    }
}

/// Hands each whole line of the text to `to`, and returns how many bytes they have.
fn recall_all<T: Recalls>(
    alloc: Global,
    text: &[u8],
    role: Role,
    link: &mut Option<Vec<u8>>,
    to: &mut T,
) -> Result<usize, ExchangeFault> {
    let whole = whole_lines(text);
    let mut number: u64 = 0;
    for line in whole.split(|octet| *octet == b'\n') {
        number = number.saturating_add(1);
        if !line.is_empty() && !recall_one(alloc, line, role, link, to)? {
            return Err(ExchangeFault::NoLine(number));
        }
    }
    match text.strip_prefix(whole) {
        // Behind no line of a journal something else than its first one was torn off.
        Some(torn) if link.is_none() && !is_front(torn) => Err(ExchangeFault::NoLine(number)),
        _ => Ok(whole.len()),
    }
}

/// Hands a line to `to`. False if there can be no such line: the first one names the link, and no other one does.
fn recall_one<T: Recalls>(
    alloc: Global,
    line: &[u8],
    role: Role,
    link: &mut Option<Vec<u8>>,
    to: &mut T,
) -> Result<bool, ExchangeFault> {
    match read_line(line) {
        Some(Line::Link(of, digits)) => {
            if of != role || link.is_some() {
                return Ok(false);
            }
            *link = Some(Vec::from_slice(alloc, digits)?);
            Ok(true)
        }
        Some(line) if link.is_some() => to.recall(&line),
        _ => Ok(false),
    }
}
