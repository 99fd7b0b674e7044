//! A certificate's text read and judged.

ghost use Rattle.std.specs.Prelude.{◌≡◌, ◌≤◌, ◌^◌, ℕ, IfOk, length};
ghost use Rattle.certificate_reader.specs.declared.block.CertFault.TheVariants as faults;
ghost use Rattle.plan_check.specs.work.Views.{certificate};
ghost use Rattle.reply_text.specs.Texts as lines;
ghost use Rattle.check_reply.specs.Checked as texts;
ghost use Rattle.check_reply.specs.work.Checked as texts_work;
ghost use Rattle.check_reply.specs.Checked.{IsCheckedText, IsReasonText, IsVerdictLine};
ghost use Rattle.plan_check.specs.Verdicts.{IsReason, IsVerdict};
ghost use Rattle.plan_check.specs.declared.verdict.Verdict.{Verdict as Said};
ghost use Rattle.sql_query.specs.WellBound.{IsWellBound};
ghost use Rattle.certificate_check.specs.certificate_laws_Arms.{HasArmsInOrs};

use crate::lines::{bad_node_text, bad_number_text, dominated_text, fault_text, not_best_text};
use crate::told::uncovered_text;
use catalog::Catalog;
use certificate_check::check;
use certificate_check::join_cover::Uncovered;
use certificate_reader::{CertFault, read_certificate};
use pg_base::Memory;
use plan_check::{Certificate, Reason, Verdict};
use reply_text::invalid_line;
use sql_query::Prepared;
use std::alloc::{AllocError, Global};

/// What is said of a reason. The error means out of memory.
fn reason_text(
    alloc: Global,
    cat: &Catalog,
    q: &Prepared,
    t: &Certificate,
    reason: &Reason,
) -> Result<Vec<u8>, Memory>
    requires bound { IsWellBound cat.now q.now }
    requires arms { HasArmsInOrs q.now }
    requires holds { IsReason cat.now q.now (certificate t.now) reason.now }
    ensures { IfOk result (λ text.
        IsReasonText cat.now q.now (certificate t.now) reason.now text.items) }
{
    match reason {
        Reason::BadNode { entry } => bad_node_text(alloc, *entry),
        Reason::BadNumber {
            entry,
            what,
            printed,
            own,
        } => bad_number_text(alloc, *entry, *what, *printed, *own),
        Reason::Uncovered {
            node,
            startup,
            cost,
            rows,
        } => {
            let x = Uncovered {
                startup: *startup,
                cost: *cost,
                rows: *rows,
            };
            uncovered_text(alloc, cat, q, t, node, x)
        }
        Reason::Dominated { entry, by } => dominated_text(alloc, *entry, *by),
        Reason::NotBest { printed, own } => not_best_text(alloc, *printed, *own),
    }
}

/// The line of a verdict on a certificate. The error means out of memory.
fn verdict_line(
    alloc: Global,
    cat: &Catalog,
    q: &Prepared,
    t: &Certificate,
    verdict: &Verdict,
) -> Result<Vec<u8>, Memory>
    requires bound { IsWellBound cat.now q.now }
    requires arms { HasArmsInOrs q.now }
    requires holds { IsVerdict cat.now q.now (certificate t.now) verdict.now }
    ensures { IfOk result (λ line.
        IsVerdictLine cat.now q.now (certificate t.now) verdict.now line.items) }
{
    match verdict {
        Verdict::Valid => Vec::from_slice(alloc, b"valid\n"),
        Verdict::No(reason) => {
            let text = reason_text(alloc, cat, q, t, reason)?;
            invalid_line(alloc, &text)
        }
    }
}

/// The line of what is found of a certificate. The error means out of memory.
fn judged_line(
    alloc: Global,
    cat: &Catalog,
    q: &Prepared,
    t: &Certificate,
) -> Result<Vec<u8>, Memory>
    requires bound { IsWellBound cat.now q.now }
    requires arms { HasArmsInOrs q.now }
    ensures { IfOk result (λ line.
        (v : Said) × IsVerdict cat.now q.now (certificate t.now) v ×
        IsVerdictLine cat.now q.now (certificate t.now) v line.items) }
{
    let verdict = check(cat, q, t);
    verdict_line(alloc, cat, q, t, &verdict)
}

/// The line of a block that is no certificate's text. The error means out of memory.
fn unread_line(alloc: Global, fault: CertFault) -> Result<Vec<u8>, Memory>
    ensures { IfOk result (λ text.
        (n : ℕ) × (fault ≡ faults.C1 n) × (text.items ≡ lines.invalid_line (texts.wrong_line_text n))) }
{
    match fault {
        CertFault::C1 { line } => {
            let text = fault_text(alloc, line)?;
            invalid_line(alloc, &text)
        }
        CertFault::Memory => Err(AllocError),
    }
}

/// What CHECK prints of a block that is given for a certificate of a query, one line with its LF: `valid`, exactly where the
/// block is the text of a certificate that is a table of the query; else `invalid: ` and the first reason. In order: the line
/// at which it is no certificate's text; the first entry that is not as it says, or the first number of it that is not its own;
/// a best plan that is not finished; the first entry that another dominates; a plan that an entry must dominate and none does,
/// as an entry's line without its number; a best plan that is not the least. The conditions are that the query is bound to the
/// catalogue, that each OR of it has an arm, and that the block has at most 2^31 bytes. The error means out of memory.
pub fn check_text(
    alloc: Global,
    cat: &Catalog,
    q: &Prepared,
    block: &[u8],
) -> Result<Vec<u8>, Memory>
    requires bound { IsWellBound cat.now q.now }
    requires arms { HasArmsInOrs q.now }
    requires few { length block.now ≤ 2 ^ 31 }
    ensures checked { IfOk result (λ text. IsCheckedText cat.now q.now block.now text.items) }
{
    match read_certificate(alloc, cat, q, block) {
        Ok(t) => judged_line(alloc, cat, q, &t),
        Err(fault) => unread_line(alloc, fault),
    }
}
