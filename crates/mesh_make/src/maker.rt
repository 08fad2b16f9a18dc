//! A schedule that is made line by line.
ghost use Rattle.std.specs.Prelude.{◌≡◌, ◌<◌, ◌≤◌, ◌+◌, ◌++◌, [], length, false, IsTrue};
ghost use Rattle.mesh_script.specs.Seen.{accepted_of, IsPrintable};
ghost use Rattle.mesh_make.specs.Stages.{IsStage, IsSize, line_at, stage_after, mesh_after};
ghost use Rattle.mesh_make.specs.Made.{made_schedule};

use crate::sizes::{EVENTS_AT_END, FIRST_ADDRESS};
use crate::step::step_line;
use crate::word::start;
use mesh_base::{Addr, Event, LINE_CAPACITY, LONGEST_LINE, LineBuf, Mesh};
use mesh_script::{Line, push_line};
use rand_pcg::Lcg64Xsh32;

/// A stage of a schedule: the line that comes next.
#[derive(Clone, Copy)]
pub enum Stage {
    /// A node, counted from 0.
    Node(u32),
    /// The link from a node to the next.
    Link(u32),
    /// A line of the steps, counted from 1.
    Step(u32),
    /// The last line.
    Last,
    /// No line is left.
    End,
}

/// How many nodes and steps a schedule has.
#[derive(Clone, Copy)]
pub struct Size {
    pub nodes: u32,
    pub steps: u32,
}

/// How far a schedule is made. The mesh has the nodes that were made.
#[derive(Drop)]
pub struct Maker {
    pub size: Size,
    pub stage: Stage,
    pub rng: Lcg64Xsh32,
    pub mesh: Mesh,
}

// The line at a stage. A line of the steps draws words from `rng`.
#[tactic(auto, unfolding(crate::specs::Stages::line_at))]
fn line_at<'a>(size: Size, stage: Stage, rng: &mut Lcg64Xsh32, text: &'a mut LineBuf) -> Line<'a>
    requires size { IsSize size.nodes size.steps }
    requires stage { IsStage size.nodes size.steps stage }
    ensures line { accepted_of result ≡ (line_at size.nodes stage rng.old).value }
    ensures rng { rng.new ≡ (line_at size.nodes stage rng.old).rng }
{
    match stage {
        Stage::Node(i) => Line::Node {
            addr: Addr(FIRST_ADDRESS + i),
            first: 1,
        },
        Stage::Link(i) => Line::Step(Event::Link {
            a: i as usize,
            b: i as usize + 1,
        }),
        Stage::Step(step) => step_line(size.nodes, step, rng, text),
        Stage::Last => Line::Auto {
            count: EVENTS_AT_END,
        },
        Stage::End => Line::Blank,
    }
}

// Adds the node of a `node` line to the mesh.
fn grow(mesh: &mut Mesh, line: &Line<'_>)
    requires { IsPrintable mesh.old line.now }
    ensures { mesh.new ≡ mesh_after mesh.old (accepted_of line.now) }
{
    if let Line::Node { addr, first } = line {
        if mesh.add(*addr, *first).is_err() {
            unreachable!();
        }
    }
}

// The stage of the next line.
#[tactic(auto, unfolding(crate::specs::Stages::stage_after))]
fn stage_after(size: Size, stage: Stage) -> Stage
    requires size { IsSize size.nodes size.steps }
    requires stage { IsStage size.nodes size.steps stage }
    ensures after { result ≡ stage_after size.nodes size.steps stage }
    ensures is_stage { IsStage size.nodes size.steps result }
{
    match stage {
        Stage::Node(i) if i + 1 < size.nodes => Stage::Node(i + 1),
        Stage::Node(_) => Stage::Link(0),
        Stage::Link(i) if i + 2 < size.nodes => Stage::Link(i + 1),
        Stage::Link(_) => Stage::Step(1),
        Stage::Step(step) if step < size.steps => Stage::Step(step + 1),
        Stage::Step(_) => Stage::Last,
        Stage::Last | Stage::End => Stage::End,
    }
}

impl Maker {
    ghost use Rattle.std.specs.Prelude.{ℕ, List, is_some};
    ghost use Rattle.mesh_base.specs.declared.events.Variant.{Variant};
    ghost use Rattle.mesh_base.specs.declared.limits.TheConstants.{LONGEST_INPUT};
    ghost use Rattle.mesh_text.specs.Schedule.{RunState, opening};
    ghost use Rattle.mesh_text.specs.Text.{On, outcome_of_line, goes_on, text_on};
    ghost use Rattle.mesh_script.specs.Seen.{IsAllowed};
    ghost use Rattle.mesh_make.specs.Making.{still_to_come, IsMaking, HasCome, is_done};

    /// A schedule none of whose lines is made yet.
    pub fn new(seed: u64, nodes: u32, steps: u32) -> Maker
        requires size { IsSize nodes steps }
        ensures making { IsMaking result }
        ensures text { still_to_come result ≡ made_schedule seed nodes steps }
        ensures opening { (variant : Variant) → HasCome result (opening variant) }
    {
        Maker {
            size: Size { nodes, steps },
            stage: Stage::Node(0),
            rng: start(seed),
            mesh: Mesh::new(),
        }
    }

    /// Whether all lines are made.
    pub fn is_done(&self) -> bool
        ensures done { result ≡ is_done self.now }
        ensures empty { IsTrue result → still_to_come self.now ≡ [] }
    {
        matches!(self.stage, Stage::End)
    }

    /// The next line. The text of a datum is kept in `text`. In a state that a run of the lines
    /// before it has come to, the line is allowed, and the run of the text that is still to come
    /// does this line and then, unless the line has ended it, runs what is left of that text.
    pub fn next_line<'a>(&mut self, text: &'a mut LineBuf) -> Line<'a>
        requires making { IsMaking self.old }
        requires more { is_done self.old ≡ false }
        ensures allowed { (m : RunState) → HasCome self.old m
            → IsAllowed m.mesh (is_some m.world) result }
        ensures goes { (m : RunState) → HasCome self.old m
            → length (still_to_come self.old) ≤ LONGEST_INPUT
            → text_on m (still_to_come self.old)
            ≡ goes_on m (outcome_of_line m (accepted_of result))
            (λ n. text_on n (still_to_come self.new)) }
        ensures comes { (m n : RunState) (said : List ℕ) → HasCome self.old m
            → outcome_of_line m (accepted_of result) ≡ On said n → HasCome self.new n }
        ensures shorter { length (still_to_come self.new) < length (still_to_come self.old) }
        ensures making { IsMaking self.new }
    {
        let line = line_at(self.size, self.stage, &mut self.rng, text);
        grow(&mut self.mesh, &line);
        self.stage = stage_after(self.size, self.stage);
        line
    }

    // Appends the next line, with its LF. The text of a datum is made in `text`.
    fn push_next(&mut self, text: &mut LineBuf, out: &mut LineBuf)
        requires making { IsMaking self.old }
        requires more { is_done self.old ≡ false }
        requires room { length out.old.items + LONGEST_LINE ≤ LINE_CAPACITY }
        ensures text { out.old.items ++ still_to_come self.old
            ≡ out.new.items ++ still_to_come self.new }
        ensures longer { length out.old.items < length out.new.items }
        ensures length { length out.new.items ≤ length out.old.items + LONGEST_LINE }
        ensures making { IsMaking self.new }
    {
        let line = line_at(self.size, self.stage, &mut self.rng, text);
        push_line(out, &self.mesh, &line);
        out.push(b'\n');
        grow(&mut self.mesh, &line);
        self.stage = stage_after(self.size, self.stage);
    }

    /// Makes the next lines, each with its LF, in this buffer: at least one, and more as long as
    /// there is room for the longest line.
    pub fn next_lines(&mut self, text: &mut LineBuf, out: &mut LineBuf)
        requires making { IsMaking self.old }
        requires more { is_done self.old ≡ false }
        ensures text { still_to_come self.old ≡ out.new.items ++ still_to_come self.new }
        ensures some { 0 < length out.new.items }
        ensures making { IsMaking self.new }
    {
        out.clear();
        self.push_next(text, out);
        'lines: while !self.is_done() && out.len() + LONGEST_LINE <= LINE_CAPACITY {
            self.push_next(text, out);
        }
    }
}
