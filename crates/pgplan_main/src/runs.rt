//! A whole run over memory, and what it must answer.

use pg_base::{MemSink, MemSource};
use pgplan::pgplan;
use std::alloc::{AllocError, Global};

/// What an out has to hold: these bytes, or a first part of these replies with so many plans.
#[derive(Clone, Copy)]
pub(crate) enum Told<'a> {
    Exactly(&'a [u8]),
    Plans(&'a [u8], u64),
}

/// A run and what it must answer.
#[derive(Clone, Copy)]
pub(crate) struct Case<'a> {
    pub(crate) word: &'a str,
    pub(crate) script: &'a [u8],
    pub(crate) status: u8,
    pub(crate) out: Told<'a>,
    pub(crate) errors: &'a [u8],
}

/// What the outside does: so many bytes by one call, and the calls that fail.
#[derive(Clone, Copy)]
pub(crate) struct Outside {
    pub(crate) piece: usize,
    pub(crate) read_fails: u64,
    pub(crate) write_fails: u64,
}

/// Nothing fails, and all bytes come at once.
pub(crate) const CALM: Outside = Outside {
    piece: 65_536,
    read_fails: 0,
    write_fails: 0,
};

fn source(alloc: Global, script: &[u8], outside: Outside) -> Result<MemSource, AllocError> {
    let bytes = Vec::from_slice(alloc, script)?;
    let fails = Vec::from_slice(alloc, &[outside.read_fails])?;
    Ok(MemSource::new(bytes, outside.piece.max(1), fails))
}

/// A sink of 4096 bytes whose write of this number fails, none where it is 0.
fn sink(alloc: Global, fails: u64) -> Result<MemSink, AllocError> {
    let fails = Vec::from_slice(alloc, &[fails])?;
    MemSink::new(alloc, 4096, fails)
}

fn words(alloc: Global, word: &str) -> Result<Vec<String>, AllocError> {
    let word = String::from_str(alloc, word)?;
    let mut words = Vec::new(alloc);
    words.push(word)?;
    Ok(words)
}

/// The status of a run, none where the words find no memory.
fn status_of(
    alloc: Global,
    word: &str,
    source: &mut MemSource,
    out: &mut MemSink,
    errors: &mut MemSink,
) -> Option<u8> {
    match words(alloc, word) {
        Ok(words) => Some(pgplan(alloc, &words, source, out, errors)),
        Err(_) => None,
    }
}

/// How many plans stand in these replies.
fn plans_in(replies: &[u8]) -> u64 {
    let mut plans = 0u64;
    for line in replies.split(|byte| *byte == b'\n') {
        if line.starts_with(b"Seq Scan") {
            plans = plans.saturating_add(1);
        }
    }
    plans
}

fn is_told(out: &[u8], told: Told) -> bool {
    match told {
        Told::Exactly(bytes) => out == bytes,
        Told::Plans(replies, plans) => replies.starts_with(out) && plans_in(out) == plans,
    }
}

/// Whether a run over a source answers as a case says, where a write of this number fails.
pub(crate) fn is_run(alloc: Global, source: &mut MemSource, write_fails: u64, case: &Case) -> bool {
    let mut out = match sink(alloc, write_fails) {
        Ok(out) => out,
        Err(_) => return false,
    };
    let mut errors = match sink(alloc, 0) {
        Ok(errors) => errors,
        Err(_) => return false,
    };
    let status = status_of(alloc, case.word, source, &mut out, &mut errors);
    status == Some(case.status) && is_told(out.bytes(), case.out) && errors.bytes() == case.errors
}

/// Whether a run answers as a case says.
pub(crate) fn is_answered(alloc: Global, case: &Case, outside: Outside) -> bool {
    match source(alloc, case.script, outside) {
        Ok(mut source) => is_run(alloc, &mut source, outside.write_fails, case),
        Err(_) => false,
    }
}

/// The place of the first case that is answered otherwise.
pub(crate) fn first_other(alloc: Global, cases: &[(Case, Outside)]) -> Option<usize> {
    for n in 0..cases.len() {
        let (case, outside) = &cases[n];
        if !is_answered(alloc, case, *outside) {
            return Some(n);
        }
    }
    None
}
