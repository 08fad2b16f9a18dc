//! A run that is held between its lines and between its events: calls that no program makes.
use crate::steps::is_event;
use mesh_base::{Bytes, Done, Event, Packet, Took};
use mesh_io::{MemSink, MemSource};
use mesh_run::{Point, Say, Status, drive, one};
use mesh_world::{Steps, World};
use std::alloc::Global;
use std::test::Fail;

// More bytes than any text here has.
const WHOLE: usize = 4096;

// Does one event of a run that has started, with no counter near its greatest value.
fn step(
    at: &mut Point<World>,
    alloc: Global,
    e: &Event<'_>,
    out: &mut Packet,
) -> Result<Done, Fail> {
    let started = match at.world() {
        Some(world) => world.steps() < 1000,
        None => false,
    };
    if !started || at.mesh().len() == 0 || !is_event(e, at.mesh().len()) {
        return Err(Fail::new("no event of this run"));
    }
    match at.step(alloc, e, out) {
        Ok(done) => Ok(done),
        Err(_) => Err(Fail::new("refused")),
    }
}

// A run after the line of its one node, which has started.
fn started(alloc: Global, out: &mut MemSink) -> Result<Point<World>, Fail> {
    let mut at: Point<World> = Point::start();
    if one(alloc, &mut at, b"node 10.0.0.1", true, out).is_err() {
        return Err(Fail::new("refused"));
    }
    if at.mesh().len() == 0 {
        return Err(Fail::new("no node"));
    }
    at.begin(alloc)?;
    Ok(at)
}

#[test]
fn a_datum_is_given_and_delivered_event_by_event(rt: HostRuntime) -> Result<(), Fail> {
    let mut out = MemSink::new(rt.alloc(), WHOLE, WHOLE, &[])?;
    let mut at = started(rt.alloc(), &mut out)?;
    assert!(rt; out.held() == b"node 10.0.0.1 sn 1\n".as_slice());
    let mut packet = Packet::new();
    let give = Event::Give {
        node: 0,
        dest: 0,
        body: b"hi",
    };
    assert!(rt;
        matches!(
            step(&mut at, rt.alloc(), &give, &mut packet)?,
            Done::Changed
        )
    );
    let turn = Event::Turn { node: 0 };
    let done = step(&mut at, rt.alloc(), &turn, &mut packet)?;
    let delivered = match &done {
        Done::Taken { took, effect, .. } => matches!(took, Took::Own { .. }) && effect.deliver,
        _ => false,
    };
    assert!(rt; delivered);
    Ok(())
}

// The text of these lines, run from this state on, whose status is to be Done, and the state after
// them.
fn driven(
    alloc: Global,
    start: Point<World>,
    schedule: &[u8],
    out: &mut MemSink,
) -> Result<Point<World>, Fail> {
    let lines = Bytes::copy_of(alloc, schedule)?;
    let mut input = MemSource::new(alloc, lines, WHOLE, &[])?;
    let steps = match start.world() {
        Some(world) => world.steps(),
        None => 0,
    };
    if start.lines() >= 1000 || steps >= 1000 {
        return Err(Fail::new("a long run"));
    }
    match drive(alloc, start, Say::All, &mut input, out) {
        (Status::Done, Some(at)) => Ok(at),
        _ => Err(Fail::new("not done")),
    }
}

#[test]
fn a_run_goes_on_from_where_it_was_held(rt: HostRuntime) -> Result<(), Fail> {
    let mut out = MemSink::new(rt.alloc(), WHOLE, WHOLE, &[])?;
    let first = driven(rt.alloc(), Point::start(), b"node 10.0.0.1\n", &mut out)?;
    let mut rest = MemSink::new(rt.alloc(), WHOLE, WHOLE, &[])?;
    driven(
        rt.alloc(),
        first,
        b"data 10.0.0.1 10.0.0.1 hi\nturn 10.0.0.1\n",
        &mut rest,
    )?;
    assert!(rt;
        rest.held()
            == b"data 10.0.0.1 10.0.0.1 hi\nturn 10.0.0.1\n\
        \x20\x20took new 10.0.0.1\n\x20\x20delivered 10.0.0.1 10.0.0.1 hi\n\
        done events 2 idle 0 given 1 delivered 1 waiting 0 queued 0 flying 0 lost 0\n"
                .as_slice()
    );
    Ok(())
}
