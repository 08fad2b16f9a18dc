//! Owned bytes, and memory for them.
ghost use Rattle.std.specs.Prelude.{◌≡◌, ◌≤◌, ◌↔◌, [], length, IfOk, IsOk, IfSome, IsSome, vec_capacity};

use crate::few::InlineBytes;
use std::alloc::{AllocError, AllocFailed, Global};
use std::marker::Model;
use std::mem::replace;
use std::sync::Arc;

/// Out of memory: an allocation failed, or what is kept has reached a limit of its own.
#[derive(Clone, Copy, Debug, PartialEq, Eq)]
pub struct NoMemory;

impl From<AllocError> for NoMemory {
    fn from(_: AllocError) -> Self {
        NoMemory
    }
}

impl<T: Drop> From<AllocFailed<T>> for NoMemory {
    fn from(_: AllocFailed<T>) -> Self {
        NoMemory
    }
}

/// An owned list of bytes. Up to 32 bytes can be kept without taking memory. Longer ones can have
/// several owners, which share their memory.
#[derive(Drop)]
pub struct Bytes {
    kept: Kept,
}

/// Where the bytes of a list are.
#[derive(Drop)]
enum Kept {
    Short(InlineBytes<32>),
    Long(Vec<u8>),
    Counted(Arc<Vec<u8>>),
}

impl Model for Bytes {
    ghost use Rattle.std.specs.Prelude.{List, ℕ};
    ghost use Rattle.mesh_base.specs.Bytes.{bytes_of};

    ghost Value = { List ℕ };

    ghost view = { λ b. bytes_of b.kept };
}

// The same bytes twice. The second is None if they have so many owners that one more can't be
// counted.
fn twice(counted: Arc<Vec<u8>>) -> (Bytes, Option<Bytes>)
    ensures first { result.0 ≡ counted.value.items }
    ensures second { IfSome result.1 (λ s. s ≡ counted.value.items) }
{
    let second = match counted.clone() {
        Ok(other) => Some(Bytes {
            kept: Kept::Counted(other),
        }),
        Err(_) => None,
    };
    let first = Bytes {
        kept: Kept::Counted(counted),
    };
    (first, second)
}

// The same bytes twice. The second is None if there is no memory for the count of their owners, or
// if one more can't be counted.
fn split(alloc: Global, bytes: Bytes) -> (Bytes, Option<Bytes>)
    ensures first { result.0 ≡ bytes }
    ensures second { IfSome result.1 (λ s. s ≡ bytes) }
{
    if let Some(short) = bytes.clone_inline() {
        return (bytes, Some(short));
    }
    match bytes.kept {
        Kept::Short(few) => (
            Bytes {
                kept: Kept::Short(few),
            },
            None,
        ),
        Kept::Long(items) => match Arc::new(alloc, items) {
            Ok(counted) => twice(counted),
            Err(failed) => (Bytes::from_vec(failed.value), None),
        },
        Kept::Counted(counted) => twice(counted),
    }
}

impl Bytes {
    /// A copy of b.
    pub fn copy_of(alloc: Global, b: &[u8]) -> Result<Bytes, NoMemory>
        ensures copy { IfOk result (λ copy. copy ≡ b.now) }
        ensures short { length b.now ≤ 32 → IsOk result }
    {
        match Bytes::short(b) {
            Some(short) => Ok(short),
            None => Ok(Bytes {
                kept: Kept::Long(Vec::from_slice(alloc, b)?),
            }),
        }
    }

    /// A copy of b that takes no memory. None if b is too long for that.
    pub fn short(b: &[u8]) -> Option<Bytes>
        ensures value { IfSome result (λ s. s ≡ b.now) }
        ensures when { IsSome result ↔ (length b.now ≤ 32) }
    {
        match InlineBytes::of(b) {
            Some(few) => Some(Bytes {
                kept: Kept::Short(few),
            }),
            None => None,
        }
    }

    /// An equal list that takes no memory. None if it is longer than 32 bytes. Bytes that are kept
    /// in the list itself are copied with their whole array, however many they are.
    #[inline]
    pub fn clone_inline(&self) -> Option<Bytes>
        ensures value { IfSome result (λ s. s ≡ self.now) }
        ensures when { IsSome result ↔ (length self.now ≤ 32) }
    {
        match &self.kept {
            Kept::Short(few) => Some(Bytes {
                kept: Kept::Short(*few),
            }),
            Kept::Long(items) => Bytes::short(items.as_slice()),
            Kept::Counted(items) => Bytes::short(items.as_ref().as_slice()),
        }
    }

    /// The same bytes once more: up to 32 are copied, which takes no memory; of more the memory is
    /// shared. None if there is no memory for the count of their owners, or if one more can't be
    /// counted.
    pub fn share(&mut self, alloc: Global) -> Option<Bytes>
        ensures same { self.new ≡ self.old }
        ensures second { IfSome result (λ s. s ≡ self.old) }
    {
        let taken = replace(self, Bytes::empty());
        let (kept, second) = split(alloc, taken);
        *self = kept;
        second
    }

    /// The bytes of a vector, without a copy.
    pub fn from_vec(items: Vec<u8>) -> Bytes
        ensures { result ≡ items.items }
    {
        Bytes {
            kept: Kept::Long(items),
        }
    }

    /// An empty list.
    pub fn empty() -> Bytes
        ensures { result ≡ [] }
    {
        Bytes {
            kept: Kept::Short(InlineBytes::default()),
        }
    }

    /// Gives back what memory the bytes don't need.
    pub fn shrink(&mut self)
        ensures { self.new ≡ self.old }
    {
        if let Kept::Long(items) = &mut self.kept {
            items.shrink_to_fit();
        }
    }

    /// The bytes.
    pub fn as_slice(&self) -> &[u8]
        ensures { result.now ≡ self.now }
    {
        match &self.kept {
            Kept::Short(few) => few.as_slice(),
            Kept::Long(items) => items.as_slice(),
            Kept::Counted(items) => items.as_ref().as_slice(),
        }
    }
}

/// Memory for one list of bytes, seen as the number of bytes that fit.
#[derive(Drop)]
pub struct Room {
    // None if `Bytes` needs no memory for that many bytes.
    items: Option<Vec<u8>>,
    most: usize,
}

impl Model for Room {
    ghost use Rattle.std.specs.Prelude.{ℕ};
    ghost use Rattle.mesh_base.specs.Bytes.{IsRoomFor};

    ghost Value = { ℕ };

    ghost view = { λ r. r.most };

    ghost invariant = { λ r. IsRoomFor r.most r.items };
}

impl Room {
    /// Room for `most` bytes. It takes no memory for up to 32 of them.
    pub fn new(alloc: Global, most: usize) -> Result<Room, NoMemory>
        ensures room { IfOk result (λ room. room ≡ most) }
        ensures short { most ≤ 32 → IsOk result }
    {
        if most <= 32 {
            return Ok(Room { items: None, most });
        }
        Ok(Room {
            items: Some(Vec::with_capacity(alloc, most)?),
            most,
        })
    }

    /// The bytes b, in this room's memory.
    pub fn fill(self, b: &[u8]) -> Bytes
        requires { length b.now ≤ self }
        ensures { result ≡ b.now }
    {
        if let Some(short) = Bytes::short(b) {
            return short;
        }
        match self.items {
            Some(items) => Bytes {
                kept: Kept::Long(filled(items, b)),
            },
            None => unreachable!(),
        }
    }
}

// The bytes b, in the memory of an empty vector.
fn filled(items: Vec<u8>, b: &[u8]) -> Vec<u8>
    requires empty { items.items ≡ [] }
    requires fits { length b.now ≤ vec_capacity items }
    ensures { result.items ≡ b.now }
{
    let mut items = items;
    match items.extend_from_slice(b) {
        Ok(()) => items,
        Err(_) => unreachable!(),
    }
}
