//! What is judged.

use crate::Certificate;
use crate::places::SetPlaces;
use catalog::Catalog;
use sql_query::Prepared;

/// A certificate of a query over a catalogue, with the places of its entries.
#[derive(Clone, Copy)]
pub struct Judged<'a> {
    /// The catalogue.
    pub cat: &'a Catalog,
    /// The query.
    pub q: &'a Prepared,
    /// The certificate.
    pub t: &'a Certificate,
    /// The places of its entries.
    pub places: &'a SetPlaces<'a>,
}
