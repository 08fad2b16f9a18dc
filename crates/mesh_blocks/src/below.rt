//! What a watched run writes below an event that has changed a node.
ghost use Rattle.std.specs.Prelude.{◌≡◌};

/// What is written below an event that has changed a node.
#[derive(Clone, Copy, Debug, PartialEq, Eq)]
pub enum Below {
    /// The node's block: what a line `show` of that node writes in the state after the event.
    Blocks,
    /// The lines of that block that went with the event, and those that came.
    Changes,
}

/// A form of a watched run, as a type.
pub trait Form {
    ghost use Rattle.mesh_blocks.specs.declared.below.Below.{Below};

    /// What is written below its events.
    ghost below: { Below };

    /// `below`, as a value of the code.
    fn below() -> Below
        ensures { result ≡ below };
}

/// The form that writes blocks.
pub struct WithBlocks;

/// The form that writes the changes of blocks.
pub struct WithChanges;

impl Form for WithBlocks {
    ghost use Rattle.mesh_blocks.specs.declared.below.Below.TheVariants.{Blocks};

    ghost below = { Blocks };

    fn below() -> Below {
        Below::Blocks
    }
}

impl Form for WithChanges {
    ghost use Rattle.mesh_blocks.specs.declared.below.Below.TheVariants.{Changes};

    ghost below = { Changes };

    fn below() -> Below {
        Below::Changes
    }
}
