//! Lists of bytes, with ample memory. Each list is in a function of its own, since it is dropped at
//! every way out of its owner.
ghost use Rattle.std.specs.Prelude.{◌≤◌, length};

use mesh_base::{Bytes, NoMemory, Room};
use std::alloc::Global;
use std::test::Fail;

fn is_copied(alloc: Global, bytes: &[u8]) -> Result<bool, NoMemory> {
    let copy = Bytes::copy_of(alloc, bytes)?;
    Ok(copy.as_slice() == bytes)
}

// Whether room for `most` bytes takes these, and they stay when the rest of the room is given back.
fn is_filled(alloc: Global, most: usize, bytes: &[u8]) -> Result<bool, NoMemory>
    requires { length bytes.now ≤ most }
{
    let mut filled = Room::new(alloc, most)?.fill(bytes);
    let whole = filled.as_slice() == bytes;
    filled.shrink();
    Ok(whole && filled.as_slice() == bytes)
}

#[test]
fn memory_is_found(rt: HostRuntime) -> Result<(), Fail> {
    let long = b"as long as no list of bytes can be without memory";
    assert!(rt; is_copied(rt.alloc(), b"hi")?);
    assert!(rt; is_copied(rt.alloc(), long)?);
    assert!(rt; is_filled(rt.alloc(), 3, b"you")?);
    assert!(rt; is_filled(rt.alloc(), 60, long)?);
    assert!(rt; Bytes::short(long).is_none());
    Ok(())
}
