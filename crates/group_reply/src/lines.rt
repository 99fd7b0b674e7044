//! The lines of groups, printed.

ghost use Rattle.std.specs.Prelude.{◌≡◌, ◌++◌, All, IfOk, OnErr, OnOk};
ghost use Rattle.std.specs.Io.KnownBytes.{Appends};
ghost use Rattle.std.specs.List.{flat_map};
ghost use Rattle.pg_base.specs.Writing.{AppendsPrefix};
ghost use Rattle.reply_text.specs.Texts.{row_line};
ghost use Rattle.reply_text.specs.work.Printed.{ArePrintable};
ghost use Rattle.group_explain.specs.reply_Putting.{HasWriteCause};
ghost use Rattle.group_explain.specs.reply_work_Putting.{Puts};
ghost use Rattle.group_explain.specs.reply_stop_Broken_TheVariants.{Write};
ghost use Rattle.group_explain.specs.reply_Settings.{IsSetting};
ghost use Rattle.group_query.specs.Shapes.{args_of};
ghost use Rattle.group_reply.specs.Replies.{item_types, lines_text};
ghost use Rattle.group_reply.specs.work.Columns.{AreSeenOf, IsItemIn};

use crate::types::item_types;
use group_explain::reply::{Broken, Setting, flush, put};
use group_values::Values;
use heap::Counters;
use pg_base::{Memory, Sink};
use pg_value::{SqlType, Value};
use reply_text::{Lines, count_line};
use sql_query::{Grouped, Prepared};
use std::alloc::Global;

/// Prints a text, a line for each list of values, each as one of its item's type, and the number of these lines. Where out
/// fails, or memory is wanted, out has a prefix of that.
pub(crate) fn put_answer<C: Counters, K: Sink>(
    at: &Setting<C>,
    g: &Grouped,
    text: &[u8],
    lines: &[Values],
    out: &mut K,
) -> Result<(), Broken>
    requires setting { IsSetting at.now }
    requires seen { AreSeenOf at.now.cat.now at.now.q.now.range g.now.keys (args_of g.now.items) }
    requires items { All (IsItemIn at.now.cat.now at.now.q.now.range g.now.keys) g.now.items }
    requires printable { All (ArePrintable
        (item_types at.now.cat.now at.now.q.now.range g.now.keys g.now.items)) lines.now }
    ensures ok { OnOk result (Appends (K.held out.old) (K.held out.new) (text.now ++
        lines_text (item_types at.now.cat.now at.now.q.now.range g.now.keys g.now.items) lines.now)) }
    ensures err { OnErr result (AppendsPrefix (K.held out.old) (K.held out.new) (text.now ++
        lines_text (item_types at.now.cat.now at.now.q.now.range g.now.keys g.now.items) lines.now)) }
    ensures cause { HasWriteCause Write (K.faults out.old) (K.faults out.new) result }
{
    let q: &Prepared = at.q;
    let keys = g.keys.items();
    let items = g.items.items();
    let types = item_types(at.alloc, at.cat, &q.range, keys, items)?;
    put_text(at.alloc, text, &types, lines, out)
}

/// Prints a text, a line for each list of values, which are of these types, and the number of these lines. Where out fails, or
/// memory is wanted, out has a prefix of that.
fn put_text<K: Sink>(
    alloc: Global,
    text: &[u8],
    types: &[SqlType],
    lines: &[Values],
    out: &mut K,
) -> Result<(), Broken>
    requires { All (ArePrintable types.now) lines.now }
    ensures ok { OnOk result
        (Appends (K.held out.old) (K.held out.new) (text.now ++ lines_text types.now lines.now)) }
    ensures err { OnErr result
        (AppendsPrefix (K.held out.old) (K.held out.new) (text.now ++ lines_text types.now lines.now)) }
    ensures cause { HasWriteCause Write (K.faults out.old) (K.faults out.new) result }
{
    let mut pending = Vec::from_slice(alloc, text)?;
    put_lines(alloc, types, lines, out, &mut pending)?;
    let count = count_line(alloc, lines.len() as u64)?;
    put(out, &mut pending, &count)?;
    flush(out, &pending)
}

/// Puts a line for each list of values, which are of these types.
fn put_lines<K: Sink>(
    alloc: Global,
    types: &[SqlType],
    lines: &[Values],
    out: &mut K,
    pending: &mut Vec<u8>,
) -> Result<(), Broken>
    requires { All (ArePrintable types.now) lines.now }
    ensures puts { Puts (K.held out.old) (K.held out.new)
        pending.old.items pending.new.items result (flat_map (row_line types.now) lines.now) }
    ensures cause { HasWriteCause Write (K.faults out.old) (K.faults out.new) result }
{
    let mut written = Lines::new(alloc);
    for line in lines {
        put_line(alloc, types, line.items(), &mut written, out, pending)?;
    }
    Ok(())
}

/// Puts the line of a list of values, which are of these types.
fn put_line<K: Sink>(
    alloc: Global,
    types: &[SqlType],
    values: &[Value],
    written: &mut Lines,
    out: &mut K,
    pending: &mut Vec<u8>,
) -> Result<(), Broken>
    requires { ArePrintable types.now values.now }
    ensures puts { Puts (K.held out.old) (K.held out.new)
        pending.old.items pending.new.items result (row_line types.now values.now) }
    ensures cause { HasWriteCause Write (K.faults out.old) (K.faults out.new) result }
{
    let line = line_text(alloc, types, values, written)?;
    put(out, pending, line)
}

/// The line of a list of values, which are of these types. The error means out of memory.
fn line_text<'a>(
    alloc: Global,
    types: &[SqlType],
    values: &[Value],
    written: &'a mut Lines,
) -> Result<&'a [u8], Memory>
    requires { ArePrintable types.now values.now }
    ensures { IfOk result (λ line. line.now ≡ row_line types.now values.now) }
{
    let mut lent = Vec::new(alloc);
    for value in values {
        lent.push(value)?;
    }
    written.line(types, &lent)
}
