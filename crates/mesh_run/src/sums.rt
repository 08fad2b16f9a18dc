//! What a run counts.
ghost use Rattle.std.specs.Prelude.{◌≡◌, ◌+◌, ℕ};
ghost use Rattle.mesh_base.specs.Bounds.{most_steps};
ghost use Rattle.mesh_model.specs.Worlds.{Outcome};
ghost use Rattle.mesh_meaning.specs.Events.{event_of};
ghost use Rattle.mesh_text.specs.Schedule.{sums_after};
ghost use Rattle.mesh_world.specs.CountsOfEvents.{is_give, AreEventCounts};
ghost use Rattle.mesh_report.specs.Sums.{sums_of};
ghost use Rattle.mesh_run.specs.Sums.{AreCounts};

use mesh_base::Event;
use mesh_report::Sums;
use mesh_world::EventCounts;

// Whether the event gives a datum.
fn is_give(e: &Event<'_>) -> bool
    ensures { result ≡ is_give (event_of e.now) }
{
    match e {
        Event::Give { .. } => true,
        _ => false,
    }
}

/// Counts an event, by its counts.
#[inline(always)]
pub(crate) fn count(sums: &mut Sums, e: &Event<'_>, event_counts: EventCounts)
    requires few { AreCounts (sums_of sums.old) most_steps }
    ensures counted { (o : Outcome) → AreEventCounts (event_of e.now) o event_counts
        → sums_of sums.new ≡ sums_after (sums_of sums.old) (event_of e.now) o }
    ensures counts { (steps : ℕ) → AreCounts (sums_of sums.old) steps
        → AreCounts (sums_of sums.new) (steps + 1) }
{
    sums.events += 1;
    match event_counts {
        EventCounts::Idle => sums.idle += 1,
        EventCounts::Changed => sums.given += u64::from(is_give(e)),
        EventCounts::Taken { delivered, dropped } => {
            sums.delivered += u64::from(delivered);
            sums.lost += u64::from(dropped);
        }
        EventCounts::Lost { parcel } => sums.lost += u64::from(parcel),
        EventCounts::Doubled { parcel } => sums.copied += u64::from(parcel),
        EventCounts::Moved => {}
    }
}
