//! COPY data against the behaviour that CSV readers and PostgreSQL document.

ghost use Rattle.std.specs.Prelude.{◌≡◌, ◌<◌, ◌+◌, IfOk, OnErr, length};
ghost use Rattle.heap.specs.Tuples.{relation_count};

use heap::{CopyFault, Counters, Counting, Heap, Heaps, Row, Tids, Tuples, value_in};
use pg_base::{ColNo, Memory, RelSet, Steps, TableNo, Tid};
use pg_value::{Column, Columns, SqlType, Value};
use std::alloc::{AllocError, Global};
use std::marker::Brand;
use std::sync::ledger::{Blank, Ledger};

/// A value of a row.
#[derive(Clone, Copy)]
enum Shown<'a> {
    Null,
    Int(i64),
    Bool(bool),
    Text(&'a [u8]),
}

type Line<'a> = [Shown<'a>; 3];

fn is_value(value: &Value, shown: Shown) -> bool {
    match (value, shown) {
        (Value::Null, Shown::Null) => true,
        (Value::Int(n), Shown::Int(m)) => *n == m,
        (Value::Bool(a), Shown::Bool(b)) => *a == b,
        (Value::Text(bytes), Shown::Text(text)) => bytes.items() == text,
        _ => false,
    }
}

/// Whether a row of three columns has these values.
fn is_row(row: Row, line: &Line) -> bool
    requires { length row.now ≡ 3 }
{
    is_value(value_in(row, ColNo(0)), line[0])
        && is_value(value_in(row, ColNo(1)), line[1])
        && is_value(value_in(row, ColNo(2)), line[2])
}

/// Whether a heap of three columns has so many rows, these lines in turn. Each is fetched and then looked at.
fn are_rows<C: Counters>(
    heap: &Heap<C>,
    count: usize,
    lines: &[Line],
    fetches: &mut Steps<C::Fetches>,
    looks: &mut Steps<C::Looks>,
) -> bool
    requires width { length heap.now.columns ≡ 3 }
    ensures fetches { fetches.new ≡ fetches.old + length heap.now.rows }
    ensures looks { looks.new ≡ looks.old + length heap.now.rows }
{
    let mut same = heap.len() as usize == count;
    for t in 0..heap.len() {
        let _ = heap.fetch(Tid(t), fetches);
        let row = heap.look(Tid(t), looks);
        same = same && is_line(row, lines, t);
    }
    same
}

/// Whether a row is the one of these lines, in turn, that a place has.
fn is_line(row: Row, lines: &[Line], place: u32) -> bool
    requires { length row.now ≡ 3 }
{
    let in_turn = (place as usize).checked_rem(lines.len()).unwrap_or(0);
    match lines.get(in_turn) {
        Some(line) => is_row(row, line),
        None => false,
    }
}

/// Three columns.
#[derive(Clone, Copy)]
enum Kind {
    /// An int4 column that takes no NULL, a text and a bool column.
    Plain,
    /// A date, a uuid, and a numeric column with two digits behind the point.
    Typed,
}

/// The columns of a heap, and two blocks.
type Blocks<'a> = (Kind, &'a [u8], &'a [u8]);

/// Whether a heap has so many rows after two blocks, these lines in turn; or the fault of a block.
fn read(alloc: Global, blocks: Blocks, count: usize, lines: &[Line]) -> Result<bool, CopyFault> {
    counted::<Brand, Brand>(alloc, Blank::new(1), Blank::new(1), blocks, count, lines)
}

fn counted<L: Ledger, M: Ledger>(
    alloc: Global,
    fetching: Blank,
    looking: Blank,
    blocks: Blocks,
    count: usize,
    lines: &[Line],
) -> Result<bool, CopyFault>
    requires name { fetching.name ≡ L.name }
    requires parts { fetching.parts ≡ L.parts }
    requires some { 0 < fetching.parts }
    requires other_name { looking.name ≡ M.name }
    requires other_parts { looking.parts ≡ M.parts }
    requires some_too { 0 < looking.parts }
{
    let columns = three_columns(alloc, blocks.0)?;
    let mut heap = Heap::<Counting<L, M>>::new(alloc, columns);
    let mut fetches = Steps::<L>::new(fetching);
    let mut looks = Steps::<M>::new(looking);
    let loaded = load_both(&mut heap, blocks);
    let same = are_rows(&heap, count, lines, &mut fetches, &mut looks);
    match loaded {
        None => Ok(same),
        Some(fault) => Err(fault),
    }
}

/// The first fault of two blocks.
fn load_both<C: Counters>(heap: &mut Heap<C>, blocks: Blocks) -> Option<CopyFault>
    ensures { heap.new.columns ≡ heap.old.columns }
{
    match heap.load(blocks.1) {
        Ok(_) => heap.load(blocks.2).err(),
        Err(fault) => Some(fault),
    }
}

fn three_columns(alloc: Global, kind: Kind) -> Result<Columns, AllocError>
    ensures { IfOk result (λ c. length c ≡ 3) }
{
    let columns = match kind {
        Kind::Plain => [
            column(SqlType::Int4, true),
            column(SqlType::Text, false),
            column(SqlType::Bool, false),
        ],
        Kind::Typed => [
            column(SqlType::Date, false),
            column(SqlType::Uuid, false),
            column(
                SqlType::Numeric {
                    digits: 10,
                    scale: 2,
                },
                false,
            ),
        ],
    };
    Ok(Columns::from_vec(Vec::from_slice(alloc, &columns)?))
}

fn column(typed: SqlType, not_null: bool) -> Column {
    Column { typed, not_null }
}

/// Two blocks, and the rows that are read from them.
type Read<'a> = (&'a [u8], &'a [u8], &'a [Line<'a>]);

const A: Line = [Shown::Int(1), Shown::Text(b"a"), Shown::Bool(true)];

const B: Line = [Shown::Int(2), Shown::Text(b"b"), Shown::Bool(false)];

const RECORDS: [Read; 12] = [
    (b"", b"1,a,t\n2,b,f\n", &[A, B]),
    (b"", b"", &[]),
    (b"", b"1,a,t", &[A]),
    (
        b"",
        b"1,a,t\r\n\r\n2,b,f\r3, c ,1",
        &[
            A,
            B,
            [Shown::Int(3), Shown::Text(b" c "), Shown::Bool(true)],
        ],
    ),
    (b"", b"\n\n1,a,t\n\n", &[A]),
    (
        b"",
        b"1,\"a,\"\"b\"\"\n\",t",
        &[[Shown::Int(1), Shown::Text(b"a,\"b\"\n"), Shown::Bool(true)]],
    ),
    (
        b"",
        b"\"1\",\"a\"b,t",
        &[[Shown::Int(1), Shown::Text(b"ab"), Shown::Bool(true)]],
    ),
    (b"", b"1,a,\"t", &[A]),
    (b"", b"\xEF\xBB\xBF1,a,t", &[A]),
    (
        b"",
        b"1,\\N,\"\\N\"",
        &[[Shown::Int(1), Shown::Null, Shown::Null]],
    ),
    (
        b"",
        b"1,\"\",t",
        &[[Shown::Int(1), Shown::Text(b""), Shown::Bool(true)]],
    ),
    (b"1,a,t", b"2,b,f", &[A, B]),
];

const LEAP_DAY: Line = [
    Shown::Int(8_825),
    Shown::Text(b"a0eebc99-9c0b-4ef8-bb6d-6bb9bd380a11"),
    Shown::Int(1_250),
];

const NOTHING: Line = [Shown::Null, Shown::Null, Shown::Null];

const TYPED_RECORDS: [Read; 3] = [
    (
        b"",
        b"2024-02-29,A0EEBC99-9C0B-4EF8-BB6D-6BB9BD380A11,12.5\n\\N,\\N,\\N",
        &[LEAP_DAY, NOTHING],
    ),
    (
        b"\\N,\\N,\"\\N\"\n",
        b" 2024-02-29 ,a0eebc99-9c0b-4ef8-bb6d-6bb9bd380a11, +0012.500\n",
        &[NOTHING, LEAP_DAY],
    ),
    (
        b"",
        b"\"1999-12-31\",\"00000000-0000-0000-0000-00000000000F\",\"-0.05\"\n0001-01-01,\\N,-0.00",
        &[
            [
                Shown::Int(-1),
                Shown::Text(b"00000000-0000-0000-0000-00000000000f"),
                Shown::Int(-5),
            ],
            [Shown::Int(-730_119), Shown::Null, Shown::Int(0)],
        ],
    ),
];

/// The place of the first blocks whose rows are other ones.
fn first_other(alloc: Global, kind: Kind, rows: &[Read]) -> Option<usize> {
    for n in 0..rows.len() {
        let (first, second, lines) = rows[n];
        if read(alloc, (kind, first, second), lines.len(), lines) != Ok(true) {
            return Some(n);
        }
    }
    None
}

#[test]
fn records(rt: HostRuntime) {
    assert_eq!(rt; first_other(rt.alloc(), Kind::Plain, &RECORDS), None);
    assert_eq!(rt; first_other(rt.alloc(), Kind::Typed, &TYPED_RECORDS), None);
}

/// A block behind one good row, and its first fault.
type Faulty<'a> = (&'a [u8], CopyFault);

const FAULTS: [Faulty; 5] = [
    (b"1,a", CopyFault::Arity { rec: 1 }),
    (b"1,a,t\n\n\\N,b,o,1", CopyFault::Arity { rec: 2 }),
    (
        b"1,a,t\n2147483648,b,o",
        CopyFault::Range {
            rec: 2,
            col: ColNo(0),
        },
    ),
    (
        b"1,a,o\nx,b,t",
        CopyFault::Invalid {
            rec: 1,
            col: ColNo(2),
        },
    ),
    (
        b"\\N,a,o",
        CopyFault::IsNull {
            rec: 1,
            col: ColNo(0),
        },
    ),
];

const TYPED_FAULTS: [Faulty; 10] = [
    (
        b"2023-02-29,x,x",
        CopyFault::Range {
            rec: 1,
            col: ColNo(0),
        },
    ),
    (
        b"x,\\N,1",
        CopyFault::Invalid {
            rec: 1,
            col: ColNo(0),
        },
    ),
    (
        b",\\N,\\N",
        CopyFault::Invalid {
            rec: 1,
            col: ColNo(0),
        },
    ),
    (
        b"\\N,x,1",
        CopyFault::Invalid {
            rec: 1,
            col: ColNo(1),
        },
    ),
    (
        b"\\N, 00000000-0000-4000-8000-000000000000,1",
        CopyFault::Invalid {
            rec: 1,
            col: ColNo(1),
        },
    ),
    (
        b"\\N,\\N,12.345",
        CopyFault::Range {
            rec: 1,
            col: ColNo(2),
        },
    ),
    (
        b"2024-02-29,\\N,1\n\\N,\\N,100000000",
        CopyFault::Range {
            rec: 2,
            col: ColNo(2),
        },
    ),
    (
        b"\\N,\\N,1e2",
        CopyFault::Invalid {
            rec: 1,
            col: ColNo(2),
        },
    ),
    (
        b"\\N,\\N,",
        CopyFault::Invalid {
            rec: 1,
            col: ColNo(2),
        },
    ),
    (
        b"2024-02-29 00:00,\\N,1",
        CopyFault::Invalid {
            rec: 1,
            col: ColNo(0),
        },
    ),
];

/// The fault of two blocks, none where both are read.
fn fault_of(alloc: Global, blocks: Blocks) -> Option<CopyFault> {
    read(alloc, blocks, 0, &[]).err()
}

/// The first block with another fault behind a row of such columns.
fn first_of_fault<'a>(
    alloc: Global,
    kind: Kind,
    row: &[u8],
    faults: &[Faulty<'a>],
) -> Option<&'a [u8]> {
    for (block, fault) in faults {
        if fault_of(alloc, (kind, row, block)) != Some(*fault) {
            return Some(*block);
        }
    }
    None
}

#[test]
fn first_faults(rt: HostRuntime) {
    let (alloc, plain, typed) = (rt.alloc(), Kind::Plain, Kind::Typed);
    assert_eq!(rt; first_of_fault(alloc, plain, b"7,z,f", &FAULTS), None);
    assert_eq!(rt;
        first_of_fault(alloc, typed, b"2000-01-01,\\N,0", &TYPED_FAULTS),
        None
    );
}

/// Adds so many rows.
fn add_rows(rows: &mut Vec<u8>, count: u32) -> Result<(), AllocError> {
    for _ in 0..count {
        rows.extend_from_slice(b"1,a,t\n")?;
    }
    Ok(())
}

/// Adds a row with a text of so many letters, and what stands behind it.
fn add_long(row: &mut Vec<u8>, letters: u32, end: &[u8]) -> Result<(), AllocError> {
    row.extend_from_slice(b"1,")?;
    for _ in 0..letters {
        row.push(b'x')?;
    }
    row.extend_from_slice(end)
}

/// Whether a heap takes a hundred thousand rows and refuses one more.
fn takes_most(rows: &mut Vec<u8>, alloc: Global) -> bool {
    add_rows(rows, 100_000).is_ok()
        && read(alloc, (Kind::Plain, b"", rows), 100_000, &[A]) == Ok(true)
        && fault_of(alloc, (Kind::Plain, rows, b"1")) == Some(CopyFault::TooMany { rec: 1 })
}

#[test]
fn most_rows(rt: HostRuntime) {
    let mut rows = Vec::new(rt.alloc());
    assert!(rt; takes_most(&mut rows, rt.alloc()));
}

/// Makes a row with a text of 8192 letters and what stands behind it. Its fault.
fn fault_behind(row: &mut Vec<u8>, alloc: Global, end: &[u8]) -> Option<CopyFault> {
    match add_long(row, 8192, end) {
        Ok(()) => fault_of(alloc, (Kind::Plain, b"", row)),
        Err(_) => None,
    }
}

/// Whether the longest text is taken and a longer one refused.
fn takes_longest(long: &mut Vec<u8>, longer: &mut Vec<u8>, alloc: Global) -> bool {
    let too_long = CopyFault::TooLong {
        rec: 1,
        col: ColNo(1),
    };
    fault_behind(long, alloc, b"") == Some(CopyFault::Arity { rec: 1 })
        && fault_behind(longer, alloc, b"x,t") == Some(too_long)
}

#[test]
fn longest_text(rt: HostRuntime) {
    let (mut long, mut longer) = (Vec::new(rt.alloc()), Vec::new(rt.alloc()));
    assert!(rt; takes_longest(&mut long, &mut longer, rt.alloc()));
}

/// Loads a block into the heap of a table.
fn fill<C: Counters>(heaps: &mut Heaps<C>, table: TableNo, block: &[u8]) -> Result<u32, CopyFault>
    requires { table.0 < length heaps.old }
    ensures refused { OnErr result (heaps.new ≡ heaps.old) }
    ensures tables { length heaps.new ≡ length heaps.old }
{
    heaps.get_mut(table).load(block)
}

/// Two heaps without rows.
fn two_heaps<C: Counters>(alloc: Global) -> Result<Heaps<C>, Memory>
    ensures { IfOk result (λ h. length h ≡ 2) }
{
    let mut heaps = Heaps::new(alloc);
    heaps.add(Heap::new(alloc, three_columns(alloc, Kind::Plain)?))?;
    heaps.add(Heap::new(alloc, three_columns(alloc, Kind::Plain)?))?;
    Ok(heaps)
}

/// Whether the second of two heaps takes a block of three rows, refuses another, and is cut to one row.
fn is_filled<C: Counters>(heaps: &mut Heaps<C>) -> bool
    requires { length heaps.old ≡ 2 }
    ensures { length heaps.new ≡ 2 }
{
    let taken = fill(heaps, TableNo(1), b"1,a,t\n2,b,f\n3,c,f") == Ok(3);
    let refused = fill(heaps, TableNo(1), b"4,d").is_err();
    let (none, three) = (heaps.get(TableNo(0)).len(), heaps.get(TableNo(1)).len());
    let heap = heaps.get_mut(TableNo(1));
    if heap.len() == 3 {
        heap.cut(1);
    }
    taken && refused && (none, three, heaps.get(TableNo(1)).len()) == (0, 3, 1)
}

#[test]
fn heaps_of_two_tables(rt: HostRuntime) {
    let heaps = two_heaps::<Counting<Brand, Brand>>(rt.alloc());
    assert!(rt; is_filled(&mut heaps.expect(&rt, "ample memory")));
}

/// Tuples of two relations with these row numbers.
fn pairs(alloc: Global, set: RelSet, numbers: &[(u32, u32)]) -> Result<Tuples, AllocError>
    requires { relation_count set ≡ 2 }
{
    let mut tuples = Tuples::new(alloc, set);
    for (first, second) in numbers {
        tuples.add(&[Tid(*first), Tid(*second)])?;
    }
    Ok(tuples)
}

fn is_tuple(tuple: &[Tid], wanted: Option<&[Tid; 2]>) -> bool {
    match wanted {
        Some(row) => tuple == row.as_slice(),
        None => false,
    }
}

/// The place of the first tuple that is another one.
fn first_tuple(tuples: &Tuples, wanted: &[[Tid; 2]]) -> Option<u32> {
    for n in 0..tuples.len() {
        if !is_tuple(tuples.get(n), wanted.get(n as usize)) {
            return Some(n);
        }
    }
    None
}

/// Whether these are the three tuples.
fn are_three(three: &Tuples) -> bool {
    let wanted = [[Tid(7), Tid(1)], [Tid(0), Tid(2)], [Tid(7), Tid(1)]];
    (three.set(), three.len()) == (RelSet(5), 3) && first_tuple(three, &wanted).is_none()
}

/// Whether three tuples stand as they are added.
fn keeps_three(alloc: Global) -> bool {
    let three = pairs(alloc, RelSet(5), &[(7, 1), (0, 2), (7, 1)]);
    match three {
        Ok(three) => are_three(&three),
        Err(_) => false,
    }
}

#[test]
fn tuples(rt: HostRuntime) {
    let none = Tuples::new(rt.alloc(), RelSet(5)).len();
    assert!(rt; none == 0 && keeps_three(rt.alloc()));
}

/// The set of these row numbers below 200.
fn below_200(alloc: Global, members: &[u32]) -> Result<Tids, AllocError>
    ensures { IfOk result (λ s. s.bound ≡ 200) }
{
    let mut tids = Tids::empty(alloc, 200)?;
    for member in members {
        if *member < 200 {
            tids.add(Tid(*member));
        }
    }
    Ok(tids)
}

/// Whether its members are these, in order.
fn are_members(tids: &Tids, members: &[u32]) -> bool {
    let mut from = 0;
    for member in members {
        if tids.from(from) != Some(Tid(*member)) {
            return false;
        }
        from = member.saturating_add(1);
    }
    tids.from(from).is_none()
}

/// Whether the members of two sets are those that both have, and of two others those that either has.
fn are_joined(both: &mut Tids, either: &mut Tids, other: &Tids) -> bool
    requires both { both.old.bound ≡ other.now.bound }
    requires either { either.old.bound ≡ other.now.bound }
{
    let before = are_members(both, &[0, 63, 64, 199]);
    both.and(other);
    either.or(other);
    before && are_members(both, &[63, 199]) && are_members(either, &[0, 63, 64, 65, 199])
}

/// Whether two sets joined with a third, made here, have the members that both have, and those that either has.
fn are_joined_with_own(both: &mut Tids, either: &mut Tids, alloc: Global) -> bool
    requires both { both.old.bound ≡ 200 }
    requires either { either.old.bound ≡ 200 }
{
    match below_200(alloc, &[63, 65, 199]) {
        Ok(other) => are_joined(both, either, &other),
        Err(_) => false,
    }
}

/// Whether a set and one made here have the members that they should, once joined with a third.
fn is_joined(both: &mut Tids, alloc: Global) -> bool
    requires { both.old.bound ≡ 200 }
{
    match below_200(alloc, &[64, 0]) {
        Ok(mut either) => are_joined_with_own(both, &mut either, alloc),
        Err(_) => false,
    }
}

/// Whether two sets made here have the members that they should, once joined with a third.
fn is_own_joined(alloc: Global) -> bool {
    match below_200(alloc, &[199, 64, 0, 63, 64]) {
        Ok(mut both) => is_joined(&mut both, alloc),
        Err(_) => false,
    }
}

fn has_empty(alloc: Global) -> bool {
    match below_200(alloc, &[]) {
        Ok(empty) => are_members(&empty, &[]),
        Err(_) => false,
    }
}

#[test]
fn bitmaps(rt: HostRuntime) {
    assert!(rt; is_own_joined(rt.alloc()) && has_empty(rt.alloc()));
}
