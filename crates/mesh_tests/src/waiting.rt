//! Data that wait for a route, and the mark that a destination needs a request.
ghost use Rattle.std.specs.Prelude.{◌≡◌, length};

use aodv_waiting::Waiting;
use mesh_base::{Bytes, NoMemory};
use std::alloc::Global;
use std::test::Fail;

fn wait_for_two(alloc: Global, waiting: &mut Waiting) -> Result<(), NoMemory>
    requires { length waiting.old.rooms ≡ 3 }
    ensures { length waiting.new.rooms ≡ 3 }
{
    let body = Bytes::copy_of(alloc, b"hi")?;
    waiting.make_room(2)?;
    waiting.add(2, body);
    Ok(())
}

fn drop_for_two(waiting: &mut Waiting)
    requires { length waiting.old.rooms ≡ 3 }
    ensures { length waiting.new.rooms ≡ 3 }
{
    if waiting.dests().has(2) {
        waiting.drop_first(2);
    }
}

// A second datum comes after the mark was removed: whether the mark stays removed.
fn keeps_the_mark(alloc: Global, waiting: &mut Waiting) -> Result<bool, NoMemory>
    requires { length waiting.old.rooms ≡ 3 }
    ensures { length waiting.new.rooms ≡ 3 }
{
    wait_for_two(alloc, waiting)?;
    waiting.unset_req(2);
    wait_for_two(alloc, waiting)?;
    Ok(!waiting.needs_request(2) && waiting.count(2) == 2)
}

// Both data are dropped, and another comes: whether it is marked.
fn marks_the_next(alloc: Global, waiting: &mut Waiting) -> Result<bool, NoMemory>
    requires { length waiting.old.rooms ≡ 3 }
{
    drop_for_two(waiting);
    drop_for_two(waiting);
    let empty = waiting.dests().is_empty();
    wait_for_two(alloc, waiting)?;
    Ok(empty && waiting.needs_request(2) && waiting.count(2) == 1)
}

#[test]
fn a_mark_stays_while_there_are_data(rt: HostRuntime) -> Result<(), Fail> {
    let mut waiting = Waiting::new(rt.alloc(), 3)?;
    assert!(rt; keeps_the_mark(rt.alloc(), &mut waiting)?);
    assert!(rt; marks_the_next(rt.alloc(), &mut waiting)?);
    Ok(())
}
