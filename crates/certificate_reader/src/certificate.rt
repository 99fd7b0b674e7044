//! The whole text of a certificate.

ghost use Rattle.std.specs.Prelude.{◌≤◌, ◌^◌, IfErr, IfOk, length};
ghost use Rattle.sql_query.specs.WellBound.{IsWellBound};
ghost use Rattle.plan_check.specs.work.Views.{certificate};
ghost use Rattle.certificate_reader.specs.Reading.{IsOnlyCertificate};
ghost use Rattle.certificate_reader.specs.work.Reading.{IsCertificateOf, IsFault};

use crate::line::LineReader;
use crate::{CertFault, read_block};
use catalog::Catalog;
use plan_check::Certificate;
use sql_query::Prepared;
use std::alloc::Global;

/// Reads a block as the text of a certificate of a query. The conditions are that the query is bound to the catalogue, and that
/// the block has at most 2^31 bytes. A certificate comes exactly where the block is its text, and no other certificate has that
/// text. The reason is C1 where the block is the text of none, with the wrong line: the lines before it begin such a text, and
/// with it they begin none. Where the query has a window, the first line says so, and it counts.
pub fn read_certificate(
    alloc: Global,
    cat: &Catalog,
    q: &Prepared,
    block: &[u8],
) -> Result<Certificate, CertFault>
    requires bound { IsWellBound cat.now q.now }
    requires few { length block.now ≤ 2 ^ 31 }
    ensures read { IfOk result (λ t. IsCertificateOf cat.now q.now block.now (certificate t)) }
    ensures only { IfOk result (λ t. IsOnlyCertificate cat.now q.now block.now (certificate t)) }
    ensures fault { IfErr result (IsFault cat.now q.now block.now) }
{
    read_block(alloc, &LineReader, cat, q, block)
}
