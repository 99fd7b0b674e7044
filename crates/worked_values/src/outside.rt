//! The adapters over std, and the calls that take memory.

use pg_base::{
    Failed, MemSink, MemSource, ReadFault, Sink, Source, StdSink, StdSource, read_all, write_all,
};
use std::io::Write;
use std::test::Fail;

#[test]
fn std_source_gives_the_reader_s_bytes(rt: HostRuntime) -> Result<(), Fail> {
    let mut source = StdSource::new(b"rows".as_slice());
    let all = read_all(rt.alloc(), &mut source, 16)?;
    assert_eq!(rt; all.as_slice(), b"rows".as_slice());
    let mut buf = [0u8; 4];
    assert_eq!(rt; source.read(&mut buf), Ok(0));
    Ok(())
}

#[test]
fn std_sink_hands_bytes_to_the_writer(rt: HostRuntime) -> Result<(), Fail> {
    let mut bytes = Vec::new(rt.alloc());
    let mut sink = StdSink::new(&mut bytes);
    assert_eq!(rt; write_all(&mut sink, b"rows"), Ok(()));
    Ok(())
}

/// A writer that takes nothing.
#[derive(Drop)]
struct Full;

impl Write for Full {
    fn write(&mut self, _: &[u8]) -> std::io::Result<usize> {
        Ok(0)
    }

    fn flush(&mut self) -> std::io::Result<()> {
        Ok(())
    }
}

#[test]
fn a_write_of_no_byte_is_a_fault(rt: HostRuntime) -> Result<(), Fail> {
    let mut sink = StdSink::new(Full);
    assert_eq!(rt; sink.write(b"rows"), Err(Failed));
    Ok(())
}

#[test]
fn a_memory_sink_fails_where_it_is_told_or_full(rt: HostRuntime) -> Result<(), Fail> {
    let mut sink = MemSink::new(rt.alloc(), 6, vec![in rt.alloc(); 2]?)?;
    assert_eq!(rt; sink.write(b"rows"), Ok(4));
    assert_eq!(rt; sink.write(b"rows"), Err(Failed));
    assert_eq!(rt; sink.write(b"rows"), Ok(2));
    assert_eq!(rt; sink.write(b"rows"), Err(Failed));
    assert_eq!(rt; sink.bytes(), b"rowsro".as_slice());
    Ok(())
}

#[test]
fn reading_stops_at_a_fault_or_past_the_limit(rt: HostRuntime) -> Result<(), Fail> {
    // The limit, the call that fails, the answer, and how much is given by the next call.
    let table = [
        (7, 0, Ok(6), 0),
        (6, 0, Ok(6), 0),
        (5, 0, Err(ReadFault::TooLong), 0),
        (3, 0, Err(ReadFault::TooLong), 2),
        (6, 1, Err(ReadFault::Failed), 4),
        (6, 2, Err(ReadFault::Failed), 2),
        (6, 3, Err(ReadFault::Failed), 0),
    ];
    for (limit, failing, answer, next) in table {
        let bytes = Vec::from_slice(rt.alloc(), b"sixsix")?;
        let mut source = MemSource::new(bytes, 4, vec![in rt.alloc(); failing]?);
        let taken = read_all(rt.alloc(), &mut source, limit).map(|all| all.len());
        assert_eq!(rt; taken, answer, "{limit} {failing}");
        let mut buf = [0u8; 8];
        assert_eq!(rt; source.read(&mut buf), Ok(next), "{limit} {failing}");
    }
    Ok(())
}
