//! What is decided of a copy and not done yet.
ghost use Rattle.std.specs.Prelude.{◌≡◌};
ghost use Rattle.mesh_meaning.specs.Events.{event_of};
ghost use Rattle.mesh_fates.specs.Left.{event_left};

use mesh_base::Event;

/// The copy of this number is to be lost or doubled.
#[derive(Clone, Copy)]
pub(crate) enum Decided {
    Lose(u64),
    Double(u64),
}

impl Decided {
    /// The event that does what is decided.
    pub(crate) fn event(self) -> Event<'static>
        ensures { event_of result ≡ event_left self }
    {
        match self {
            Decided::Lose(id) => Event::Lose { id },
            Decided::Double(id) => Event::Double { id },
        }
    }
}
