//! Runs of schedules over sources that give few bytes a call and sinks that take few, and over
//! sources and sinks that fail at one call.
ghost use Rattle.std.specs.Prelude.{◌≡◌, ◌≤◌, ◌<◌};

use mesh_base::{Bytes, Variant};
use mesh_io::{MemSink, MemSource};
use mesh_run::{Status, run};
use mesh_world::World;
use std::alloc::Global;
use std::test::Fail;

// More bytes than any schedule or text here has.
const WHOLE: usize = 4096;

const DATUM: &[u8] = b"\
    node 10.0.0.1\n\
    data 10.0.0.1 10.0.0.1 hi\n\
    turn 10.0.0.1\n";

const DATUM_TEXT: &[u8] = b"\
    node 10.0.0.1 sn 1\n\
    data 10.0.0.1 10.0.0.1 hi\n\
    turn 10.0.0.1\n\
    \x20\x20took new 10.0.0.1\n\
    \x20\x20delivered 10.0.0.1 10.0.0.1 hi\n\
    done events 2 idle 0 given 1 delivered 1 waiting 0 queued 0 flying 0 lost 0\n";

const ROUTE: &[u8] = b"\
    node 10.0.0.1 sn 1\n\
    node 10.0.0.2 sn 1\n\
    node 10.0.0.3 sn 1\n\
    link 10.0.0.1 10.0.0.2\n\
    link 10.0.0.2 10.0.0.3\n\
    data 10.0.0.1 10.0.0.3 hi\n\
    turn 10.0.0.1\n\
    auto 100\n\
    show 10.0.0.1\n\
    show 10.0.0.2\n\
    show 10.0.0.3\n\
    route 10.0.0.1 10.0.0.3\n";

const ROUTE_TEXT: &[u8] = b"\
    node 10.0.0.1 sn 1\n\
    node 10.0.0.2 sn 1\n\
    node 10.0.0.3 sn 1\n\
    link 10.0.0.1 10.0.0.2\n\
    link 10.0.0.2 10.0.0.3\n\
    data 10.0.0.1 10.0.0.3 hi\n\
    turn 10.0.0.1\n\
    \x20\x20took new 10.0.0.3\n\
    auto 100\n\
    ask 10.0.0.1 10.0.0.3\n\
    \x20\x20sent all 01080000000000010a000003000000000a00000100000002\n\
    \x20\x20copy 1 10.0.0.2\n\
    deliver 1\n\
    \x20\x20heard 10.0.0.1 10.0.0.2\n\
    turn 10.0.0.2\n\
    \x20\x20took rreq 10.0.0.1\n\
    \x20\x20sent all 01080001000000010a000003000000000a00000100000002\n\
    \x20\x20copy 2 10.0.0.1\n\
    \x20\x20copy 3 10.0.0.3\n\
    deliver 2\n\
    \x20\x20heard 10.0.0.2 10.0.0.1\n\
    turn 10.0.0.1\n\
    \x20\x20took rreq 10.0.0.2\n\
    deliver 3\n\
    \x20\x20heard 10.0.0.2 10.0.0.3\n\
    turn 10.0.0.3\n\
    \x20\x20took rreq 10.0.0.2\n\
    \x20\x20sent one 10.0.0.2 020000000a000003000000010a000001ffffffff\n\
    \x20\x20copy 4 10.0.0.2\n\
    deliver 4\n\
    \x20\x20heard 10.0.0.3 10.0.0.2\n\
    turn 10.0.0.2\n\
    \x20\x20took rrep 10.0.0.3\n\
    \x20\x20sent one 10.0.0.1 020000010a000003000000010a000001ffffffff\n\
    \x20\x20copy 5 10.0.0.1\n\
    deliver 5\n\
    \x20\x20heard 10.0.0.2 10.0.0.1\n\
    turn 10.0.0.1\n\
    \x20\x20took rrep 10.0.0.2\n\
    send 10.0.0.1 10.0.0.3\n\
    \x20\x20sent one 10.0.0.2 100000000a0000030a0000016869\n\
    \x20\x20copy 6 10.0.0.2\n\
    deliver 6\n\
    \x20\x20heard 10.0.0.1 10.0.0.2\n\
    turn 10.0.0.2\n\
    \x20\x20took data 10.0.0.1\n\
    \x20\x20sent one 10.0.0.3 100000000a0000030a0000016869\n\
    \x20\x20copy 7 10.0.0.3\n\
    deliver 7\n\
    \x20\x20heard 10.0.0.2 10.0.0.3\n\
    turn 10.0.0.3\n\
    \x20\x20took data 10.0.0.2\n\
    \x20\x20delivered 10.0.0.1 10.0.0.3 hi\n\
    auto did 16\n\
    show 10.0.0.1\n\
    \x20\x20sn 2\n\
    \x20\x20asked 10.0.0.1 1\n\
    \x20\x20entry 10.0.0.2 0 unk val 1 10.0.0.2 -\n\
    \x20\x20entry 10.0.0.3 1 kno val 2 10.0.0.2 -\n\
    \x20\x20inbox 0\n\
    show 10.0.0.2\n\
    \x20\x20sn 1\n\
    \x20\x20asked 10.0.0.1 1\n\
    \x20\x20entry 10.0.0.1 2 kno val 1 10.0.0.1 -\n\
    \x20\x20entry 10.0.0.3 1 kno val 1 10.0.0.3 10.0.0.1\n\
    \x20\x20inbox 0\n\
    show 10.0.0.3\n\
    \x20\x20sn 1\n\
    \x20\x20asked 10.0.0.1 1\n\
    \x20\x20entry 10.0.0.1 2 kno val 2 10.0.0.2 -\n\
    \x20\x20entry 10.0.0.2 0 unk val 1 10.0.0.2 -\n\
    \x20\x20inbox 0\n\
    route 10.0.0.1 10.0.0.3\n\
    \x20\x20arrived 2\n\
    done events 20 idle 0 given 1 delivered 1 waiting 0 queued 0 flying 0 lost 0\n";

// How a source gives, or a sink takes: at most this many bytes a call, and none at the calls that
// fail, which are counted from 1.
#[derive(Clone, Copy)]
struct Way<'c> {
    most: usize,
    fails: &'c [u64],
}

// A way that never fails.
fn few(most: usize) -> Way<'static>
    requires { 0 < most }
    ensures { result.most ≡ most }
{
    Way { most, fails: &[] }
}

// The run. It is a call of its own: in a function that owns what it borrows, the proof would go
// through all that the run promises at each way out.
fn run_from(alloc: Global, input: &mut MemSource, out: &mut MemSink) -> Status {
    run::<World, _, _>(alloc, false, Variant::Base, input, out)
}

// Runs a schedule: what it answers, and what the sink then holds.
fn ran(
    alloc: Global,
    schedule: &[u8],
    read: Way<'_>,
    write: Way<'_>,
) -> Result<(Status, MemSink), Fail>
    requires read { 0 < read.most }
    requires write { 0 < write.most }
{
    let bytes = Bytes::copy_of(alloc, schedule)?;
    let mut input = MemSource::new(alloc, bytes, read.most, read.fails)?;
    let mut out = MemSink::new(alloc, WHOLE, write.most, write.fails)?;
    let status = run_from(alloc, &mut input, &mut out);
    Ok((status, out))
}

// Whether the whole text of the run with a route is written.
fn is_route_written(alloc: Global, read: Way<'_>, write: Way<'_>) -> Result<bool, Fail>
    requires read { 0 < read.most }
    requires write { 0 < write.most }
{
    let (status, out) = ran(alloc, ROUTE, read, write)?;
    Ok(status == Status::Done && out.held() == ROUTE_TEXT)
}

// Whether the run with a datum answers this, and this many bytes of its text are written.
fn is_datum_written(
    alloc: Global,
    read: Way<'_>,
    write: Way<'_>,
    status: Status,
    written: usize,
) -> Result<bool, Fail>
    requires read { 0 < read.most }
    requires write { 0 < write.most }
    requires written { written ≤ 188 }
{
    let (answer, out) = ran(alloc, DATUM, read, write)?;
    Ok(answer == status && out.held() == &DATUM_TEXT[..written])
}

#[test]
fn few_bytes_a_call_make_no_difference(rt: HostRuntime) -> Result<(), Fail> {
    assert!(rt; is_route_written(rt.alloc(), few(1), few(WHOLE))?);
    assert!(rt; is_route_written(rt.alloc(), few(WHOLE), few(1))?);
    Ok(())
}

// How long the text of the lines is that are complete in this many bytes of DATUM.
fn text_read(bytes: usize) -> usize
    ensures { result ≤ 112 }
{
    match bytes {
        0..14 => 0,
        14..40 => 19,
        40..54 => 45,
        _ => 112,
    }
}

// Whether a run over a source that gives seven bytes a call, and fails at this one, has this
// answer, with this much of the text written.
fn reads_until(alloc: Global, call: usize, status: Status, written: usize) -> Result<bool, Fail>
    requires { written ≤ 188 }
{
    let read = Way {
        most: 7,
        fails: &[call as u64],
    };
    is_datum_written(alloc, read, few(WHOLE), status, written)
}

// The eighth call gives the last bytes, and the ninth says that there are no more.
#[test]
fn a_failed_read_leaves_the_text_of_the_lines_before_it(rt: HostRuntime) -> Result<(), Fail> {
    for call in 1..10 {
        let written = text_read(7 * (call - 1));
        assert!(rt; reads_until(rt.alloc(), call, Status::ReadFault, written)?);
    }
    assert!(rt; reads_until(rt.alloc(), 10, Status::Done, DATUM_TEXT.len())?);
    Ok(())
}

// How long the text is that this many calls have put, each of at most five bytes. The text of
// the lines is handed on before the end of the input is read, and the last line after it.
fn text_put(calls: usize) -> usize
    requires { calls < 39 }
    ensures { result ≤ 188 }
{
    match calls {
        0..23 => 5 * calls,
        _ => 112 + 5 * (calls - 23),
    }
}

// Whether a run over a sink that takes five bytes a call, and fails at this one, has this answer,
// with this much of the text written.
fn writes_until(alloc: Global, call: usize, status: Status, written: usize) -> Result<bool, Fail>
    requires { written ≤ 188 }
{
    let write = Way {
        most: 5,
        fails: &[call as u64],
    };
    is_datum_written(alloc, few(WHOLE), write, status, written)
}

// The 39th call puts the last bytes.
#[test]
fn a_failed_write_leaves_a_prefix_of_the_text(rt: HostRuntime) -> Result<(), Fail> {
    for call in 1..40 {
        let written = text_put(call - 1);
        assert!(rt; writes_until(rt.alloc(), call, Status::WriteFault, written)?);
    }
    assert!(rt; writes_until(rt.alloc(), 40, Status::Done, DATUM_TEXT.len())?);
    Ok(())
}
