//! The sample script, written part by part.

ghost use Rattle.std.specs.Prelude.{◌≡◌, ◌≤◌, ◌<◌, ◌+◌, ◌*◌, ◌^◌, ◌++◌, IfOk, OnOk, length};
ghost use Rattle.std.specs.String.{string_bytes};
ghost use Rattle.pg_base.specs.declared.limits.TheConstants.{MOST_SCRIPT_BYTES};
ghost use Rattle.pgplan.specs.Script.{between, copied, data_of, draw_at, drawn, either_query, head_of, numbers_line, queries_of, record_line, records, script};

use crate::draws::Draws;
use pg_base::Memory;
use std::alloc::Global;

/// Three tables and five indexes.
const DEFINITIONS: &str = "CREATE TABLE a (id int4 NOT NULL, g int4, v int4);
CREATE TABLE b (id int4 NOT NULL, a_id int4, v int4);
CREATE TABLE c (id int4 NOT NULL, b_id int4, v int4);
CREATE INDEX ia ON a (id);
CREATE INDEX iag ON a (g, v);
CREATE INDEX iba ON b (a_id);
CREATE INDEX icb ON c (b_id);
CREATE INDEX icv ON c (v);
";

/// The sample script of a number: three tables and five indexes, 500, 1000 and 2000 rows of numbers that are drawn from that
/// number on, and six queries that ask for drawn numbers. The only error is out of memory.
pub fn sample_script(alloc: Global, n: u64) -> Result<Vec<u8>, Memory>
    ensures text { IfOk result (λ text. text.items ≡ script n) }
    ensures short { IfOk result (λ text. length text.items ≤ MOST_SCRIPT_BYTES) }
{
    let mut text = String::from_str(alloc, DEFINITIONS)?;
    let mut draws = Draws { state: n };
    append_data(&mut text, &mut draws)?;
    append_queries(&mut text, &mut draws)?;
    Ok(text.into_bytes())
}

/// Appends the rows of the three tables.
fn append_data(text: &mut String, draws: &mut Draws) -> Result<(), Memory>
    ensures text { OnOk result
        (string_bytes text.new ≡ string_bytes text.old ++ data_of draws.old.state) }
    ensures state { OnOk result (draws.new.state ≡ drawn draws.old.state 7000) }
{
    append_copy(text, draws, "a", 0, 50, 500)?;
    append_copy(text, draws, "b", 1, 500, 1000)?;
    append_copy(text, draws, "c", 1, 1000, 2000)
}

/// Appends COPY of so many records into a table.
fn append_copy(
    text: &mut String,
    draws: &mut Draws,
    table: &str,
    least: u64,
    below: u64,
    count: u64,
) -> Result<(), Memory>
    requires some { 0 < below }
    requires small { least + below < 2 ^ 64 }
    ensures text { OnOk result
        (string_bytes text.new ≡
        string_bytes text.old ++ copied table.now draws.old.state least below count) }
    ensures state { OnOk result (draws.new.state ≡ drawn draws.old.state (2 * count)) }
{
    append_head(text, table)?;
    append_records(text, draws, least, below, count)?;
    text.push_str("\\.\n")
}

/// Appends the line before the records of a table.
fn append_head(text: &mut String, table: &str) -> Result<(), Memory>
    ensures { OnOk result (string_bytes text.new ≡ string_bytes text.old ++ head_of table.now) }
{
    write!(
        text,
        "COPY {table} FROM STDIN WITH (FORMAT CSV, NULL '\\N');\n"
    )
}

/// Appends so many records.
fn append_records(
    text: &mut String,
    draws: &mut Draws,
    least: u64,
    below: u64,
    count: u64,
) -> Result<(), Memory>
    requires some { 0 < below }
    requires small { least + below < 2 ^ 64 }
    ensures text { OnOk result
        (string_bytes text.new ≡
        string_bytes text.old ++ records draws.old.state least below count) }
    ensures state { OnOk result (draws.new.state ≡ drawn draws.old.state (2 * count)) }
{
    for i in 0..count {
        let other = least + draws.below(below);
        let value = draws.below(1000);
        append_record(text, i + 1, other, value)?;
    }
    Ok(())
}

/// Appends a record of three numbers.
fn append_record(text: &mut String, id: u64, other: u64, value: u64) -> Result<(), Memory>
    ensures { OnOk result
        (string_bytes text.new ≡ string_bytes text.old ++ numbers_line id other value) }
{
    write!(text, "{id},{other},{value}\n")
}

/// Appends a number between two texts.
fn append_between(text: &mut String, before: &str, number: u64, behind: &str) -> Result<(), Memory>
    ensures { OnOk result
        (string_bytes text.new ≡ string_bytes text.old ++ between before.now number behind.now) }
{
    write!(text, "{before}{number}{behind}")
}

/// Appends the query for rows of one value or another.
fn append_either(text: &mut String, id: u64, value: u64) -> Result<(), Memory>
    ensures { OnOk result (string_bytes text.new ≡ string_bytes text.old ++ either_query id value) }
{
    append_between(text, "SELECT id FROM c WHERE b_id = ", id, " OR v = ")?;
    append_between(text, "", value, ";\n")
}

/// Appends the six queries.
fn append_queries(text: &mut String, draws: &mut Draws) -> Result<(), Memory>
    ensures { OnOk result
        (string_bytes text.new ≡ string_bytes text.old ++ queries_of draws.old.state) }
{
    append_between(
        text,
        "SELECT * FROM a WHERE g = ",
        draws.below(50),
        " ORDER BY v;\n",
    )?;
    append_between(
        text,
        "SELECT a.id, b.id FROM a, b WHERE a.id = b.a_id AND a.v < ",
        draws.below(1000),
        ";\n",
    )?;
    append_between(
        text,
        "SELECT a.id, c.id FROM a, b, c WHERE a.id = b.a_id AND b.id = c.b_id AND a.id = ",
        1 + draws.below(500),
        " ORDER BY c.v;\n",
    )?;
    append_either(text, 1 + draws.below(500), draws.below(1000))?;
    append_between(
        text,
        "SELECT b.id FROM b, c WHERE b.id = c.b_id AND c.v = ",
        draws.below(1000),
        ";\n",
    )?;
    append_between(
        text,
        "SELECT x.id, y.id FROM a x, a y WHERE x.g = y.g AND x.id = ",
        1 + draws.below(500),
        " ORDER BY y.v;\n",
    )
}
