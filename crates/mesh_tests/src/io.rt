//! Each call that can run out of memory, and the sizes of what passes through. The longest line of
//! a printed text is in checks/cases/mesh_check, and streams that the system fails are cases with a
//! failing-stdin or a room.
use crate::lines::source_of;
use mesh_io::{
    Buffered, Failed, LineError, Lines, MemSink, MemSource, PutFault, ReservedBuffer, Source,
    StdSink, StdSource, put_all,
};
use std::test::Fail;

// Whether this is the answer for a buffer of nine bytes, which then begins with these.
fn gives(source: &mut MemSource, answer: Result<usize, Failed>, front: &[u8]) -> bool {
    let mut buf = [0u8; 9];
    source.take(&mut buf) == answer && buf.starts_with(front)
}

fn gives_seven_a_call(source: &mut MemSource) -> bool {
    gives(source, Ok(7), b"node 10")
        && gives(source, Err(Failed), b"")
        && gives(source, Ok(6), b".0.0.1")
        && gives(source, Ok(0), b"")
}

#[test]
fn a_source_gives_seven_bytes_a_call(rt: HostRuntime) -> Result<(), Fail> {
    let mut source = source_of(rt.alloc(), b"node 10.0.0.1", 7, &[2])?;
    assert!(rt; gives_seven_a_call(&mut source));
    Ok(())
}

fn gathers(buffer: &mut Buffered<MemSink>) -> bool {
    put_all(buffer, b"node ").is_ok()
        && put_all(buffer, b"10.0").is_ok()
        && put_all(buffer, b".0.1").is_ok()
        && buffer.flush().is_ok()
}

fn loses(buffer: &mut Buffered<MemSink>) -> bool {
    put_all(buffer, b"lost").is_ok() && matches!(buffer.flush(), Err(PutFault))
}

#[test]
fn pieces_are_gathered_to_one_call(rt: HostRuntime) -> Result<(), Fail> {
    let room = ReservedBuffer::new(rt.alloc())?;
    let sink = MemSink::new(rt.alloc(), 100, 100, &[2])?;
    let mut buffer = Buffered::new(sink, room);
    assert!(rt; gathers(&mut buffer) && loses(&mut buffer));
    assert!(rt; buffer.into_inner().held() == b"node 10.0.0.1".as_slice());
    Ok(())
}

type Answer<'a> = Result<Option<&'a [u8]>, LineError>;

fn come<S: Source>(lines: &mut Lines<'_, S>, answers: &[Answer<'_>]) -> bool {
    for answer in answers {
        if lines.next() != *answer {
            return false;
        }
    }
    true
}

/// The answers over a source that gives 7 bytes a call and fails at its second call.
const ANSWERS: [Answer<'static>; 6] = [
    Err(LineError::ReadFault),
    Ok(Some(b"node 10.0.0.1")),
    Ok(Some(b"")),
    Ok(Some(b"turn")),
    Ok(None),
    Ok(None),
];

#[test]
fn lines_come_one_by_one(rt: HostRuntime) -> Result<(), Fail> {
    let mut source = source_of(rt.alloc(), b"node 10.0.0.1\n\nturn", 7, &[2])?;
    assert!(rt; come(&mut Lines::new(&mut source), &ANSWERS));
    Ok(())
}

const TOO_LONG: [Answer<'static>; 2] = [Err(LineError::TooLong), Err(LineError::TooLong)];

fn only_600_come(lines: &mut Lines<'_, MemSource>) -> bool {
    come(lines, &[Ok(Some(&[b'x'; 600]))]) && lines.is_decided() && come(lines, &TOO_LONG)
}

#[test]
fn a_line_has_at_most_600_bytes(rt: HostRuntime) -> Result<(), Fail> {
    let mut bytes = [b'x'; 1202];
    bytes[600] = b'\n';
    let mut source = source_of(rt.alloc(), &bytes, 4096, &[])?;
    assert!(rt; only_600_come(&mut Lines::new(&mut source)));
    Ok(())
}

#[test]
fn lines_pass_through_a_pipe(rt: HostRuntime) -> Result<(), Fail> {
    let (reader, writer) = std::io::pipe(&rt)?;
    let mut sink = StdSink::new(writer);
    let mut source = StdSource::new(reader);
    let mut lines = Lines::new(&mut source);
    assert!(rt; put_all(&mut sink, b"node 10.0.0.1\n").is_ok());
    assert!(rt; come(&mut lines, &[Ok(Some(b"node 10.0.0.1"))]));
    drop(sink);
    assert!(rt; come(&mut lines, &[Ok(None)]));
    Ok(())
}
