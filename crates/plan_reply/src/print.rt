//! The reply to EXPLAIN (TABLE), written to out.

ghost use Rattle.std.specs.Prelude.{◌≡◌, IfErr, OnErr, OnOk};
ghost use Rattle.std.specs.Io.KnownBytes.{Appends};
ghost use Rattle.pg_base.specs.Writing.{AppendsPrefix};
ghost use Rattle.reply.specs.Putting.{HasWriteCause};
ghost use Rattle.reply.specs.work.Replies.{HasPrinted, LeavesPrinted};
ghost use Rattle.sql_query.specs.WellBound.{IsWellBound};
ghost use Rattle.plan_reply.specs.Tabled.{IsTableOf};
ghost use Rattle.planned_table.specs.certificate_laws_Arms.{HasArmsInOrs};
ghost use Rattle.plan_tree.specs.Least.{HasNoPlan};

use crate::text::table_text;
use catalog::Catalog;
use pg_base::{Sink, write_all};
use reply::Stop;
use sql_query::Prepared;
use std::alloc::Global;

/// Writes a whole text. The error means that out failed, with a first part of it written.
fn put<K: Sink>(out: &mut K, text: &[u8]) -> Result<(), Stop>
    ensures ok { OnOk result (Appends (K.held out.old) (K.held out.new) text.now) }
    ensures err { OnErr result (AppendsPrefix (K.held out.old) (K.held out.new) text.now) }
    ensures write { IfErr result (λ stop. stop ≡ Stop.Write) }
    ensures cause { HasWriteCause Stop.Write (K.faults out.old) (K.faults out.new) result }
{
    match write_all(out, text) {
        Ok(()) => Ok(()),
        Err(_) => Err(Stop::Write),
    }
}

/// Prints the reply to EXPLAIN (TABLE) of a query: the text of a plan that no admissible one undercuts in price, the
/// certificate of a table of the query whose best plan it is, and a line `\.`. Where the query has a window, the text begins
/// with the line of LIMIT and OFFSET, and the certificate is of version 2. No row is read. At `Write` and `Memory` out has a
/// prefix of that, or is as before; at `Write` its count of faults rose. `NoPlan` comes only where each finished plan costs
/// 10^18 or more, and changes nothing.
pub fn explain_table<K: Sink>(
    alloc: Global,
    cat: &Catalog,
    q: &Prepared,
    out: &mut K,
) -> Result<(), Stop>
    requires bound { IsWellBound cat.now q.now }
    requires arms { HasArmsInOrs q.now }
    ensures tabled { OnOk result
        (HasPrinted (IsTableOf cat.now q.now) (K.held out.old) (K.held out.new)) }
    ensures stopped { IfErr result (λ stop.
        LeavesPrinted stop (IsTableOf cat.now q.now) (K.held out.old) (K.held out.new)) }
    ensures no_plan { IfErr result (λ stop. stop ≡ Stop.NoPlan → HasNoPlan cat.now q.now) }
    ensures cause { HasWriteCause Stop.Write (K.faults out.old) (K.faults out.new) result }
{
    let text = table_text(alloc, cat, q)?;
    put(out, &text)
}
