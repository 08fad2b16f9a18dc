//! The lines of the steps, by the words that are drawn for them.
ghost use Rattle.std.specs.Prelude.{◌≡◌, ◌<◌, ◌≤◌};
ghost use Rattle.mesh_base.specs.declared.limits.TheConstants.{MOST_NODES};
ghost use Rattle.mesh_script.specs.Seen.{accepted_of};
ghost use Rattle.mesh_make.specs.declared.sizes.TheConstants.{MOST_STEPS};
ghost use Rattle.mesh_make.specs.Drawn.{node_by, other_by, copy_by, datum_text, step_line};
ghost use Rattle.mesh_make.specs.Words.{word, after};

use crate::sizes::EVENTS_BETWEEN;
use crate::word::next;
use mesh_base::{Event, LineBuf, push_number};
use mesh_script::Line;
use rand_pcg::Lcg64Xsh32;

// The node that the next word chooses.
fn draw_node(rng: &mut Lcg64Xsh32, nodes: u32) -> u32
    requires { 1 ≤ nodes }
    ensures node { result ≡ node_by nodes (word rng.old) }
    ensures within { result < nodes }
    ensures after { rng.new ≡ after rng.old }
{
    next(rng) % nodes
}

// Two nodes that the next two words choose. They differ, so that they can be linked.
#[tactic(auto, unfolding(crate::specs::Drawn::other_by))]
fn draw_two(rng: &mut Lcg64Xsh32, nodes: u32) -> (usize, usize)
    requires two { 2 ≤ nodes }
    requires few { nodes ≤ MOST_NODES }
    ensures first { result.0 ≡ node_by nodes (word rng.old) }
    ensures second { result.1
        ≡ other_by nodes (node_by nodes (word rng.old)) (word (after rng.old)) }
    ensures after { rng.new ≡ after (after rng.old) }
{
    let a = draw_node(rng, nodes);
    let b = draw_node(rng, nodes);
    let b = if b == a { (a + 1) % nodes } else { b };
    (a as usize, b as usize)
}

// The copy that the next word chooses.
#[tactic(auto, unfolding(crate::specs::Drawn::copy_by))]
fn draw_copy(rng: &mut Lcg64Xsh32, step: u32) -> u64
    requires first { 1 ≤ step }
    requires last { step ≤ MOST_STEPS }
    ensures copy { result ≡ copy_by step (word rng.old) }
    ensures after { rng.new ≡ after rng.old }
{
    1 + u64::from(next(rng) % (4 * step))
}

// The text of the datum that line `step` gives. It is kept in `text`.
fn write_text<'a>(step: u32, text: &'a mut LineBuf) -> &'a [u8]
    ensures { result.now ≡ datum_text step }
{
    text.clear();
    text.push(b'm');
    push_number(text, u64::from(step));
    text.as_slice()
}

/// Line `step` of the steps, counted from 1. The remainder by 16 of the next word chooses what the
/// line does, and the words after it its nodes or its copy. The text of a datum is kept in `text`.
pub fn step_line<'a>(nodes: u32, step: u32, rng: &mut Lcg64Xsh32, text: &'a mut LineBuf) -> Line<'a>
    requires two { 2 ≤ nodes }
    requires few { nodes ≤ MOST_NODES }
    requires first { 1 ≤ step }
    requires last { step ≤ MOST_STEPS }
    ensures line { accepted_of result ≡ (step_line nodes step rng.old).value }
    ensures after { rng.new ≡ (step_line nodes step rng.old).rng }
{
    match next(rng) % 16 {
        0 | 1 => {
            let (a, b) = draw_two(rng, nodes);
            Line::Step(Event::Link { a, b })
        }
        2 => {
            let (a, b) = draw_two(rng, nodes);
            Line::Step(Event::Cut { a, b })
        }
        3..=5 => {
            let (node, dest) = draw_two(rng, nodes);
            let body = write_text(step, text);
            Line::Step(Event::Give { node, dest, body })
        }
        6 => Line::Step(Event::Lose {
            id: draw_copy(rng, step),
        }),
        7 => Line::Step(Event::Deliver {
            id: draw_copy(rng, step),
        }),
        8 | 9 => Line::Step(Event::Turn {
            node: draw_node(rng, nodes) as usize,
        }),
        10 => {
            let (node, dest) = draw_two(rng, nodes);
            Line::Route { node, dest }
        }
        11 => {
            let (node, dest) = draw_two(rng, nodes);
            Line::Step(Event::Ask { node, dest })
        }
        _ => Line::Auto {
            count: EVENTS_BETWEEN,
        },
    }
}
