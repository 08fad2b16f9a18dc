//! Why a line isn't done.
ghost use Rattle.std.specs.Prelude.{◌≡◌};
ghost use Rattle.mesh_meaning.specs.Events.{event_of, node_of};
ghost use Rattle.mesh_run.specs.Stops.{stop_of};
ghost use Rattle.mesh_run.specs.declared.stop.Stop.TheVariants as stops;

use mesh_base::{Event, Full, NoMemory};
use mesh_grammar::LineFault;
use mesh_io::PutFault;

/// Why a line wasn't done, or not written whole.
#[derive(Clone, Copy)]
pub enum Stop<'a> {
    /// The line isn't allowed.
    BadLine(LineFault),
    /// This event would raise this counter of this node past its field's greatest value.
    Full {
        event: Event<'a>,
        node: usize,
        field: Full,
    },
    WriteFault,
    NoMemory,
}

/// Why an event wasn't done, or not written whole. The caller knows which event it is.
#[derive(Clone, Copy)]
pub enum EventStop {
    /// The event would raise this counter of its node past its field's greatest value.
    Full { field: Full },
    WriteFault,
    NoMemory,
}

impl EventStop {
    /// Why the line of this event, or the line that chose it, isn't done.
    #[cold]
    pub fn of_event<'a>(self, event: Event<'a>) -> Stop<'a>
        ensures { result ≡ stop_of event.entry self }
    {
        match self {
            EventStop::Full { field } => Stop::Full {
                event,
                node: node_of(&event),
                field,
            },
            EventStop::WriteFault => Stop::WriteFault,
            EventStop::NoMemory => Stop::NoMemory,
        }
    }
}

// The node at which an event happens. An event of a link or a copy has none; 0 is returned for it.
fn node_of(event: &Event<'_>) -> usize
    ensures { result ≡ node_of (event_of event.now) }
{
    match *event {
        Event::Give { node, .. } => node,
        Event::Turn { node } => node,
        Event::Send { node, .. } => node,
        Event::Ask { node, .. } => node,
        _ => 0,
    }
}

impl From<PutFault> for Stop<'_> {
    ghost from_gives = { λ _ stop. stop ≡ stops.WriteFault };

    fn from(_fault: PutFault) -> Self {
        Stop::WriteFault
    }
}

impl From<NoMemory> for Stop<'_> {
    ghost from_gives = { λ _ stop. stop ≡ stops.NoMemory };

    fn from(_none: NoMemory) -> Self {
        Stop::NoMemory
    }
}
