//! Bytes put on their way to a sink, written some at a time.

ghost use Rattle.std.specs.Prelude.{◌≡◌, ◌++◌, IfOk, OnOk, OnErr};
ghost use Rattle.std.specs.Io.KnownBytes.{Appends};
ghost use Rattle.pg_base.specs.Writing.{AppendsPrefix};
ghost use Rattle.reply.specs.Putting.{HasWriteCause};
ghost use Rattle.reply.specs.work.Putting.{Puts};
ghost use Rattle.reply.specs.work.Settings.{IsSetting, types_shown};
ghost use Rattle.reply.specs.declared.stop.Broken.TheVariants.{Write};

use crate::setting::Setting;
use crate::stop::Broken;
use crate::types::types_of;
use heap::Counters;
use pg_base::{Memory, Sink, write_all};
use pg_value::SqlType;
use reply_text::Lines;
use sql_query::{Prepared, selected_columns};

/// How many pending bytes are enough to be written at once.
const ENOUGH: usize = 1024;

/// What is printed for now: the bytes that are pending, the lines of rows, and the types of the columns that these show.
#[derive(Drop)]
pub(crate) struct Page {
    pub(crate) pending: Vec<u8>,
    pub(crate) lines: Lines,
    pub(crate) types: Vec<SqlType>,
}

impl Page {
    /// A page for the rows of a query, of which some bytes are pending, and no line is there yet. The error means out of
    /// memory.
    pub(crate) fn new<C: Counters>(at: &Setting<C>, bytes: &[u8]) -> Result<Page, Memory>
        requires { IsSetting at.now }
        ensures pending { IfOk result (λ page. page.pending.items ≡ bytes.now) }
        ensures types { IfOk result (λ page. page.types.items ≡ types_shown at.now) }
    {
        selected_columns();
        let q: &Prepared = at.q;
        let types = types_of(at.alloc, at.cat, &q.range, q.select.items())?;
        let pending = Vec::from_slice(at.alloc, bytes)?;
        Ok(Page {
            pending,
            lines: Lines::new(at.alloc),
            types,
        })
    }
}

/// Puts these bytes behind the pending ones, and writes all that is pending once it is enough. Where out fails, or memory is
/// wanted, out has a prefix of the pending bytes and these.
pub fn put<K: Sink>(out: &mut K, pending: &mut Vec<u8>, bytes: &[u8]) -> Result<(), Broken>
    ensures puts { Puts (K.held out.old) (K.held out.new)
        pending.old.items pending.new.items result bytes.now }
    ensures cause { HasWriteCause Write (K.faults out.old) (K.faults out.new) result }
{
    pending.extend_from_slice(bytes)?;
    if pending.len() >= ENOUGH {
        write_all(out, pending)?;
        pending.clear();
    }
    Ok(())
}

/// Writes all that is pending. Where out fails, it has a prefix of that.
pub fn flush<K: Sink>(out: &mut K, pending: &[u8]) -> Result<(), Broken>
    ensures ok { OnOk result (Appends (K.held out.old) (K.held out.new) pending.now) }
    ensures err { OnErr result (AppendsPrefix (K.held out.old) (K.held out.new) pending.now) }
    ensures cause { HasWriteCause Write (K.faults out.old) (K.faults out.new) result }
{
    write_all(out, pending)?;
    Ok(())
}
