//! Texts that are held in memory.
ghost use Rattle.std.specs.Prelude.{◌≡◌, Some, []};

use mesh_io::{Failed, Sink};
use std::alloc::Global;

/// A text in memory. As a sink it takes each piece whole, and fails if memory runs out.
#[derive(Drop)]
pub struct Draft {
    bytes: Vec<u8>,
    failed: u64,
}

impl Draft {
    /// An empty draft, which takes no memory yet.
    pub fn new(alloc: Global) -> Draft
        ensures text { result.bytes.items ≡ [] }
        ensures failed { result.failed ≡ 0 }
    {
        Draft {
            bytes: Vec::new(alloc),
            failed: 0,
        }
    }

    /// The text.
    pub fn text(&self) -> &[u8]
        ensures { result.now ≡ self.now.bytes.items }
    {
        self.bytes.as_slice()
    }

    /// Removes the text, and keeps its memory for the next one.
    pub fn clear(&mut self)
        ensures text { self.new.bytes.items ≡ [] }
        ensures failed { self.new.failed ≡ self.old.failed }
    {
        self.bytes.clear();
    }
}

impl Sink for Draft {
    ghost held = { λ d. Some d.bytes.items };

    ghost faults = { λ d. d.failed };

    fn put(&mut self, piece: &[u8]) -> Result<usize, Failed> {
        match self.bytes.extend_from_slice(piece) {
            Ok(()) => Ok(piece.len()),
            Err(_) => {
                self.failed = self.failed.saturating_add(1);
                Err(Failed)
            }
        }
    }
}

/// The two texts of a block, before an event and after it.
#[derive(Drop)]
pub struct Drafts {
    pub before: Draft,
    pub after: Draft,
}

impl Drafts {
    /// Two empty drafts, which take no memory yet.
    pub fn new(alloc: Global) -> Drafts
        ensures before { result.before.bytes.items ≡ [] }
        ensures after { result.after.bytes.items ≡ [] }
        ensures sound_before { result.before.failed ≡ 0 }
        ensures sound_after { result.after.failed ≡ 0 }
    {
        Drafts {
            before: Draft::new(alloc),
            after: Draft::new(alloc),
        }
    }
}
