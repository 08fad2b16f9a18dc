//! A checkpoint's bytes as the state of a run.
ghost use Rattle.std.specs.Prelude.{◌≡◌, ◌<◌, ◌≤◌, IfOk, MatchResult};
ghost use Rattle.mesh_checkpoint.specs.Checkpoint as model;
ghost use Rattle.mesh_checkpoint.specs.Points.{IsState};
ghost use Rattle.mesh_load.specs.Loading.{IsRefused};
ghost use Rattle.mesh_load.specs.RunStates.{IsPlainRunState};
ghost use Rattle.mesh_report.specs.Sums.{sums_of};
ghost use Rattle.mesh_load.specs.Parts.{Makes, IsBody, IsRunStateOf, IsUnsoundBody, sums_in};

use crate::error::StateError;
use crate::world::read_maybe_world;
use mesh_checkpoint::{
    Head, MOST_STEPS, SUMS_END, balanced_is_taken, one_body, read_head, validate, written_is_read,
};
use mesh_report::Sums;
use mesh_restore::read_mesh;
use mesh_run::{Point, State};
use mesh_world::World;
use std::alloc::Global;

// What a run had counted, as the head of a body says.
fn sums_in(head: &Head) -> Sums
    ensures { sums_of result ≡ sums_in head.now }
{
    Sums {
        events: head.events,
        idle: head.idle,
        given: head.given,
        delivered: head.delivered,
        lost: head.lost,
        copied: head.copied,
    }
}

// The run state with this body, or the first part of its world that isn't as in a run. The only
// other refusal is lack of memory: the bytes are a body, and its sums are balanced.
fn restore(alloc: Global, body: &[u8]) -> Result<State<World>, StateError>
    requires { IsBody body.now }
    ensures { Makes IsRunStateOf IsUnsoundBody (model.body.get body.now) result }
{
    let Some((head, rest)) = read_head(body) else {
        return Err(StateError::Spelling);
    };
    let Some((mesh, rest)) = read_mesh(rest) else {
        return Err(StateError::Spelling);
    };
    let world = read_maybe_world(alloc, &mesh, head.variant, rest)?;
    match Point::from_parts(mesh, head.variant, world, sums_in(&head), head.lines) {
        Some(point) => {
            // Its contract says that all that the world names is in its mesh.
            let _world = point.world();
            // The state without the point's buffers, which take two thirds of its room.
            Ok(point.state)
        }
        None => Err(StateError::Sums),
    }
}

// `load` without a run's buffers. It isn't inlined: its frame, with the parts from which a state is
// made, would take stack beside a whole point.
#[inline(never)]
fn load_state(alloc: Global, b: &[u8]) -> Result<State<World>, StateError>
    ensures exact { MatchResult result (λ p. IsState b.now p) (λ e. IsRefused b.now e) }
    ensures plain { IfOk result IsPlainRunState }
    ensures unrefused { IfOk result (λ _. (e : StateError) → IsRefused b.now e
        → e ≡ StateError.NoMemory) }
    ensures lines { IfOk result (λ p. p.lines < SUMS_END) }
    ensures steps { IfOk result (λ p. p.steps ≤ MOST_STEPS) }
{
    // A body is read back from its bytes: after the first eight, the one that the validation found.
    written_is_read();
    // A checkpoint has one body, and if its sums are balanced, the validation doesn't refuse it.
    one_body();
    balanced_is_taken();
    // Its contract says that the bytes are a checkpoint. The number of data isn't needed.
    let _data = validate(b)?;
    restore(alloc, &b[8..])
}

/// The one plain run state whose checkpoint these bytes are, at which a run can go on; or the first
/// refusal that applies. Nothing asks for memory before it is known that the bytes are a checkpoint
/// with balanced sums.
pub fn load(alloc: Global, b: &[u8]) -> Result<Point<World>, StateError>
    ensures exact { MatchResult result (λ p. IsState b.now p) (λ e. IsRefused b.now e) }
    ensures plain { IfOk result IsPlainRunState }
    ensures unrefused { IfOk result (λ _. (e : StateError) → IsRefused b.now e
        → e ≡ StateError.NoMemory) }
    ensures lines { IfOk result (λ p. p.lines < SUMS_END) }
    ensures steps { IfOk result (λ p. p.steps ≤ MOST_STEPS) }
{
    let state = load_state(alloc, b)?;
    let mut at = Point::start();
    at.state = state;
    Ok(at)
}
