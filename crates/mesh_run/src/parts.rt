//! A state that is put together from its parts.
ghost use Rattle.std.specs.Prelude.{◌≡◌, ◌≤◌, ◌+◌, ◌↔◌, option_map, IfSome, IsSome};
ghost use Rattle.std.specs.Option.{ForSome};
ghost use Rattle.mesh_base.specs.Bounds.{most_steps};
ghost use Rattle.mesh_text.specs.Schedule.{RunState, world_of};
ghost use Rattle.mesh_text.specs.Accounts.{IsBalanced};
ghost use Rattle.mesh_world.specs.Seen.{IsSoundWorld, most_data_at_first};
ghost use Rattle.mesh_report.specs.Sums.{sums_of};
ghost use Rattle.mesh_run.specs.Sums.{AreCounts};
ghost use Rattle.mesh_run.specs.RunStates.{run_state_seen, AreTotals, IsWorldOf};

use crate::point::Point;
use crate::state::State;
use arrayvec::ArrayVec;
use mesh_base::{Done, Mesh, Variant};
use mesh_report::Sums;
use mesh_world::{Totals, World};

// The data of the world; there are none before there is a world.
fn totals_of(world: &Option<World>) -> Totals
    ensures are { (m : RunState) → m.world ≡ option_map (λ w. w.world) world.now
        → AreTotals (world_of m) result }
    ensures few { let most = most_data_at_first + most_steps in
        result.waiting + result.queued + result.flying ≤ most }
    ensures sound { ForSome world.now IsSoundWorld }
{
    match world {
        Some(world) => {
            // The contract of `mesh` says that the world is sound.
            let _mesh = world.mesh();
            world.totals()
        }
        None => Totals {
            waiting: 0,
            queued: 0,
            flying: 0,
        },
    }
}

impl Point<World> {
    /// The state of these parts, from which a run goes on as from any other. None exactly where the
    /// number of data that were given or doubled isn't the number of those that were delivered,
    /// wait, are in flight, or were dropped.
    pub fn from_parts(
        mesh: Mesh,
        variant: Variant,
        world: Option<World>,
        sums: Sums,
        lines: u64,
    ) -> Option<Point<World>>
        requires few { AreCounts (sums_of sums) 0 }
        requires world { ForSome world (IsWorldOf variant mesh) }
        ensures state { let run_state = run_state_seen variant mesh world (sums_of sums) lines in
            IfSome result (λ point. point ≡ run_state) }
        ensures exact { let run_state = run_state_seen variant mesh world (sums_of sums) lines in
            IsSome result ↔ IsBalanced run_state }
    {
        // The contract of `len` says that these nodes are a mesh.
        let _size = mesh.len();
        let totals = totals_of(&world);
        let held = totals.waiting + totals.queued + totals.flying;
        if sums.given + sums.copied != sums.delivered + held + sums.lost {
            return None;
        }
        Some(Point {
            state: State::of_parts(variant, mesh, world, sums, lines),
            packet: ArrayVec::new(),
            done: Done::Idle,
        })
    }
}
