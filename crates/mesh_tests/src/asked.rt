//! The ids that were seen, by their originators.
ghost use Rattle.std.specs.Prelude.{◌≡◌, ◌<◌, length};

use aodv_asked::Asked;
use mesh_base::NoMemory;
use std::test::Fail;

fn ask(asked: &mut Asked, o: usize, id: u32) -> Result<(), NoMemory>
    requires { o < length asked.old.rooms }
    ensures { length asked.new.rooms ≡ length asked.old.rooms }
{
    asked.make_room(o)?;
    asked.insert(o, id);
    Ok(())
}

// Whether node 1 has asked with the ids 3 and 7, and node 2 never.
fn has_two(asked: &Asked) -> bool
    requires { length asked.now.rooms ≡ 3 }
{
    asked.has(1, 3)
        && !asked.has(2, 3)
        && matches!(asked.first(1), Some(3))
        && matches!(asked.after(1, 3), Some(7))
        && asked.after(1, 7).is_none()
        && matches!(asked.next_id(1), Some(8))
        && matches!(asked.next_id(2), Some(1))
        && asked.count(1) == 2
}

#[test]
fn ids_are_kept_by_originator(rt: HostRuntime) -> Result<(), Fail> {
    let mut asked = Asked::new(rt.alloc(), 3)?;
    ask(&mut asked, 1, 7)?;
    ask(&mut asked, 1, 3)?;
    assert!(rt; has_two(&asked));
    ask(&mut asked, 1, 4294967295)?;
    assert!(rt; asked.next_id(1).is_none());
    Ok(())
}
