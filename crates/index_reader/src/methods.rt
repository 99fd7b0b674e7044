//! The access method after USING.

ghost use Rattle.std.specs.Prelude.{◌≡◌};
ghost use Rattle.sql_grammar.specs.Words.{words_of_using};
ghost use Rattle.expr_reader.specs.work.Reads.{Reads};
ghost use Rattle.index_reader.specs.Keys.{method_of_name, method_bound};
ghost use Rattle.index_reader.specs.work.Reads.{ends_using};
ghost use Rattle.expr_reader.specs.work.Reading.{StandsFirst, IfFirst};

use expr_reader::Cursor;
use opfamily::Method;
use pg_base::{Code, Refusal};
use sql_grammar::{Word, fault_at};
use std::alloc::Global;

/// An access method, and the offset of its word; 0, where none is named.
#[derive(Clone, Copy, Debug, PartialEq, Eq)]
pub struct MethodRead {
    /// The method.
    pub method: Method,
    /// The offset of the word after USING.
    pub at: u32,
}

/// The access method of this name in small letters. None where none has it.
fn method_named(name: &[u8]) -> Option<Method>
    ensures { result ≡ method_of_name name.now }
{
    if name == b"btree".as_slice() {
        return Some(Method::Btree);
    }
    if name == b"hash".as_slice() {
        return Some(Method::Hash);
    }
    None
}

/// The access method: btree where no USING is next. An unknown one is refused (42704) at its word.
pub fn using(alloc: Global, from: &mut Cursor) -> Result<MethodRead, Refusal>
    requires { StandsFirst words_of_using ends_using from.old }
    ensures { IfFirst words_of_using ends_using from.old
        (λ u rest. Reads (λ m. m) (method_bound u) rest result from.new) }
{
    if !from.takes(Word::Using) {
        return Ok(MethodRead {
            method: Method::Btree,
            at: 0,
        });
    }
    let name = from.expect_name(alloc)?;
    let Some(method) = method_named(name.bytes.items()) else {
        return Err(Refusal::Fault(fault_at(Code::S8, name.token)));
    };
    Ok(MethodRead {
        method,
        at: name.token.start,
    })
}
