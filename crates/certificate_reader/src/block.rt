//! A block of lines read as a certificate.

ghost use Rattle.std.specs.Prelude.{◌≡◌, ◌<◌, ◌≤◌, ◌+◌, ◌++◌, ◌^◌, IfErr, IfNone, IfOk, IfSome, OnOk, length, map, true};
ghost use Rattle.sql_query.specs.WellBound.{IsWellBound};
ghost use Rattle.plan_check.specs.Views.{side};
ghost use Rattle.plan_check.specs.work.Views.{certificate, entry};
ghost use Rattle.certificate_entries.specs.certificate_text_Texts.{head_text, is_line};
ghost use Rattle.certificate_reader.specs.Reading.{IsOnlyCertificate};
ghost use Rattle.certificate_reader.specs.work.Reading.{GetsEntry, IsAtBest, IsBlock, IsCertificateOf, IsFault, IsFirstLine, LacksHead, head_lines, line_end};

use catalog::Catalog;
use certificate_entries::{Line, LineFault, ReadLine};
use pg_base::Memory;
use plan_check::{Certificate, Entries, Entry, Side};
use sql_query::Prepared;
use std::alloc::{AllocError, Global};

/// Why no certificate was read.
#[derive(Clone, Copy, Debug, PartialEq, Eq)]
pub enum CertFault {
    /// The block is no certificate text: its lines up to this one begin none, and those before it begin one. Where the
    /// block only ends too early it is the line behind its last.
    C1 {
        /// The line, from 1.
        line: u32,
    },
    /// Out of memory.
    Memory,
}

impl From<AllocError> for CertFault {
    ghost use Rattle.certificate_reader.specs.declared.block.CertFault.TheVariants.{Memory};

    ghost from_gives = { λ _ fault. fault ≡ Memory };

    fn from(_: AllocError) -> CertFault {
        CertFault::Memory
    }
}

/// How long the first line of a text is, without its LF.
fn line_length(text: &[u8]) -> usize
    ensures within { result ≤ length text.now }
    ensures line { result ≡ line_end text.now }
{
    for n in 0..text.len() {
        if text[n] == b'\n' {
            return n;
        }
    }
    text.len()
}

/// The first line of a text, without its LF, and what stands behind it. None where the text has no LF.
fn next_line(text: &[u8]) -> Option<(&[u8], &[u8])>
    ensures line { IfSome result (λ r. IsFirstLine text.now (r.0).now (r.1).now) }
    ensures less { IfSome result (λ r. length (r.1).now < length text.now) }
    ensures none { IfNone result (is_line text.now ≡ true) }
{
    let end = line_length(text);
    if end < text.len() {
        Some((&text[..end], &text[end + 1..]))
    } else {
        None
    }
}

/// What stands behind the first line that tells that a query has a window; the whole block, where it has none. None where
/// the block does not begin with that line.
fn behind_head<'a>(q: &Prepared, block: &'a [u8]) -> Option<&'a [u8]>
    ensures behind { IfSome result (λ left. block.now ≡ head_text q.now.window ++ left.now) }
    ensures none { IfNone result (LacksHead q.now.window block.now) }
{
    match q.window {
        None => Some(block),
        Some(_) => block.strip_prefix(b"certificate 2\n".as_slice()),
    }
}

/// The number, from 1, of the line behind those of some entries.
fn line_number(q: &Prepared, entries: usize) -> u32
    requires few { entries ≤ 2 ^ 31 }
    ensures { result ≡ (head_lines q.now.window + entries) + 1 }
{
    match q.window {
        None => entries as u32 + 1,
        Some(_) => entries as u32 + 2,
    }
}

/// Puts an entry behind others. The error means out of memory.
fn push(entries: &mut Vec<Entry>, made: Entry) -> Result<(), Memory>
    ensures { OnOk result (GetsEntry entries.old entries.new made) }
{
    entries.push(made)?;
    Ok(())
}

/// The certificate of some entries and a best plan, where nothing is left of the block; else the next line is wrong.
fn ended_by(
    alloc: Global,
    cat: &Catalog,
    q: &Prepared,
    block: &[u8],
    read: (Vec<Entry>, Side),
    rest: &[u8],
) -> Result<Certificate, CertFault>
    requires bound { IsWellBound cat.now q.now }
    requires few { length block.now ≤ 2 ^ 31 }
    requires at { IsAtBest cat.now q.now block.now (map entry read.0.items) (side read.1) rest.now }
    ensures { IsBlock cat.now q.now block.now result }
{
    cat.lawful();
    let (entries, best) = read;
    let line = line_number(q, entries.len()) + 1;
    if rest.is_empty() {
        Ok(Certificate {
            entries: Entries::from_vec(alloc, entries)?,
            best,
        })
    } else {
        Err(CertFault::C1 { line })
    }
}

/// Reads what stands behind the first line, line by line.
fn read_lines<R: ReadLine>(
    alloc: Global,
    reader: &R,
    cat: &Catalog,
    q: &Prepared,
    block: &[u8],
    start: &[u8],
) -> Result<Certificate, CertFault>
    requires bound { IsWellBound cat.now q.now }
    requires few { length block.now ≤ 2 ^ 31 }
    requires start { block.now ≡ head_text q.now.window ++ start.now }
    ensures { IsBlock cat.now q.now block.now result }
{
    cat.lawful();
    let mut entries = Vec::new(alloc);
    let mut left = start;
    while let Some((line, rest)) = next_line(left) {
        let n = entries.len() as u64 + 1;
        match reader.read(alloc, cat, q, n, line) {
            Ok(Line::Entry(made)) => {
                push(&mut entries, made)?;
                left = rest;
            }
            Ok(Line::Best(best)) => return ended_by(alloc, cat, q, block, (entries, best), rest),
            Err(LineFault::Bad) => {
                return Err(CertFault::C1 {
                    line: line_number(q, entries.len()),
                });
            }
            Err(LineFault::Memory) => return Err(CertFault::Memory),
        }
    }
    Err(CertFault::C1 {
        line: line_number(q, entries.len()),
    })
}

/// Reads a block as the text of a certificate of a query, by a reader of one line. The conditions are that the query is bound
/// to the catalogue, and that the block has at most 2^31 bytes. A certificate comes exactly where the block is its text, and no
/// other one has that text. The reason is C1 where the block is no certificate text, with the wrong line.
pub fn read_block<R: ReadLine>(
    alloc: Global,
    reader: &R,
    cat: &Catalog,
    q: &Prepared,
    block: &[u8],
) -> Result<Certificate, CertFault>
    requires bound { IsWellBound cat.now q.now }
    requires few { length block.now ≤ 2 ^ 31 }
    ensures read { IfOk result (λ t. IsCertificateOf cat.now q.now block.now (certificate t)) }
    ensures only { IfOk result (λ t. IsOnlyCertificate cat.now q.now block.now (certificate t)) }
    ensures fault { IfErr result (IsFault cat.now q.now block.now) }
{
    cat.lawful();
    match behind_head(q, block) {
        Some(start) => read_lines(alloc, reader, cat, q, block, start),
        None => Err(CertFault::C1 { line: 1 }),
    }
}
