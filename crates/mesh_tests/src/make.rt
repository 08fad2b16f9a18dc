//! A schedule with each kind of line that `make` writes, from another program with the same seed.
use mesh_io::{MemSink, Source};
use mesh_make::{MadeSource, make};
use std::test::Fail;

const MADE: &[u8] = b"node 10.0.0.1 sn 1\n\
node 10.0.0.2 sn 1\n\
node 10.0.0.3 sn 1\n\
link 10.0.0.1 10.0.0.2\n\
link 10.0.0.2 10.0.0.3\n\
auto 16\n\
turn 10.0.0.3\n\
auto 16\n\
route 10.0.0.3 10.0.0.1\n\
lose 13\n\
deliver 20\n\
ask 10.0.0.2 10.0.0.1\n\
auto 16\n\
auto 16\n\
link 10.0.0.1 10.0.0.2\n\
data 10.0.0.2 10.0.0.3 m11\n\
cut 10.0.0.3 10.0.0.1\n\
auto 100000\n";

fn is_made(sink: &mut MemSink) -> bool {
    make(147, 3, 12, sink).is_ok() && sink.held() == MADE
}

#[test]
fn a_schedule_is_made_line_by_line(rt: HostRuntime) -> Result<(), Fail> {
    let mut sink = MemSink::new(rt.alloc(), 1000, 1000, &[])?;
    assert!(rt; is_made(&mut sink));
    Ok(())
}

// Whether the next seven bytes, or what is left of them, are these.
fn gives(source: &mut MadeSource, piece: &[u8]) -> bool {
    let mut buf = [0u8; 7];
    source.take(&mut buf) == Ok(piece.len()) && buf.starts_with(piece)
}

fn gives_all(source: &mut MadeSource) -> bool {
    for piece in MADE.chunks(7) {
        if !gives(source, piece) {
            return false;
        }
    }
    gives(source, b"")
}

#[test]
fn a_source_gives_the_same_bytes(rt: HostRuntime) {
    let mut source = MadeSource::new(147, 3, 12);
    assert!(rt; gives_all(&mut source));
}
