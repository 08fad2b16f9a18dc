//! The channel: its words, its time, and what it has decided of copies.
ghost use Rattle.std.specs.Prelude.{◌≡◌, ◌≤◌, ◌<◌, ◌+◌, ◌*◌, ◌^◌, ◌∷◌, [], drop, length, slice_get, OnOk, IfOk, IfSome};
ghost use Rattle.std.specs.Option.{option_map};
ghost use Rattle.mesh_meaning.specs.Events.{event_of};
ghost use Rattle.mesh_fates.specs.Channels as channels;
ghost use Rattle.mesh_fates.specs.Channels.{opening, number_behind, decided, with_double};
ghost use Rattle.mesh_fates.specs.Fates.{draw};
ghost use Rattle.mesh_fates.specs.Left.{event_left, IsNumbered};
ghost use Rattle.mesh_fates.specs.Steps.{planned_late, with_left, settled, settled_double, decided_one};

use crate::decided::Decided;
use crate::due::Due;
use crate::fate::{Lot, draw_delay, draw_fate};
use crate::rates::Rates;
use mesh_base::{Event, NoMemory};
use mesh_make::start;
use rand_pcg::Lcg64Xsh32;
use std::alloc::Global;
use std::collections::{BTreeSet, VecDeque};
use std::marker::Model;

/// The greatest tick at which a channel decides what happens to copies.
pub const GREATEST_TICK: u64 = 4_611_686_018_427_387_904;

/// A random channel. It takes memory for the copies that are due and for what is left to do.
#[derive(Drop)]
pub struct Channel {
    rng: Lcg64Xsh32,
    tick: u64,
    plan: BTreeSet<Due>,
    left: VecDeque<Decided>,
}

impl Model for Channel {
    ghost use Rattle.mesh_fates.specs.Channels as channels;
    ghost use Rattle.mesh_fates.specs.Left.{events_left, AreNumbered, AreNumberedLeft};

    ghost Value = { channels.Channel };

    ghost view = { λ c. record {
      rng = c.rng;
      tick = c.tick;
      plan = c.plan.keys;
      left = events_left c.left.items;
    } };

    ghost invariant = { λ c. AreNumbered c.plan.keys × AreNumberedLeft c.left.items };
}

impl Channel {
    /// The channel of a seed, before the first event. It takes no memory yet, but keeps the
    /// allocator for later.
    #[tactic(auto, unfolding(crate::specs::Channels::opening))]
    pub fn new(alloc: Global, seed: u64) -> Channel
        ensures { result ≡ opening seed }
    {
        Channel {
            rng: start(seed),
            tick: 0,
            plan: BTreeSet::new(alloc),
            left: VecDeque::new(alloc),
        }
    }

    /// The tick.
    pub fn tick(&self) -> u64
        ensures { result ≡ self.now.tick }
    {
        self.tick
    }

    /// Sets the tick.
    pub fn set_tick(&mut self, tick: u64)
        ensures { self.new ≡ record self.old { tick = tick } }
    {
        self.tick = tick;
    }

    /// The first copy of the plan, if there is one.
    pub fn first_due(&self) -> Option<Due>
        ensures first { result ≡ slice_get self.now.plan 0 }
        ensures number { IfSome result (λ d. 1 ≤ d.id) }
    {
        self.plan.first().copied()
    }

    /// Takes the first copy out of the plan, if there is one.
    pub fn take_due(&mut self)
        ensures { self.new ≡ record self.old { plan = drop 1 self.old.plan } }
    {
        self.plan.pop_first();
    }

    /// Takes the next event that is left to do, the loss or the doubling of a copy, if there is
    /// one.
    pub fn next_left(&mut self) -> Option<Event<'static>>
        ensures next { option_map event_of result ≡ slice_get self.old.left 0 }
        ensures left { self.new ≡ record self.old { left = drop 1 self.old.left } }
        ensures number { IfSome result (λ e. IsNumbered (event_of e)) }
    {
        match self.left.pop_front() {
            Some(decided) => Some(decided.event()),
            None => None,
        }
    }

    // Plans a copy with this delay.
    fn plan_copy(&mut self, id: u64, delay: u16) -> Result<(), NoMemory>
        requires tick { self.old.tick ≤ GREATEST_TICK }
        requires number { 1 ≤ id }
        ensures planned { OnOk result (self.new ≡ planned_late self.old id delay) }
    {
        let tick = self.tick + 1 + u64::from(delay);
        self.plan.insert(Due { tick, id })?;
        Ok(())
    }

    // Adds this to what is left to do.
    fn leave(&mut self, decided: Decided) -> Result<(), NoMemory>
        requires number { IsNumbered (event_left decided) }
        ensures left { OnOk result (self.new ≡ with_left self.old decided) }
    {
        self.left.push_back(decided)?;
        Ok(())
    }

    // Plans a copy with this lot, or leaves its loss to do.
    fn settle(&mut self, id: u64, lot: Lot) -> Result<(), NoMemory>
        requires tick { self.old.tick ≤ GREATEST_TICK }
        requires number { 1 ≤ id }
        ensures settled { OnOk result (self.new ≡ settled self.old id lot) }
    {
        if lot.lost {
            self.leave(Decided::Lose(id))
        } else {
            self.plan_copy(id, lot.delay)
        }
    }

    // Follows what is decided of a double, if there is one: its copy is doubled, and then the
    // double has a lot of its own.
    fn settle_double(&mut self, id: u64, new: u64, lot: Option<Lot>) -> Result<(), NoMemory>
        requires tick { self.old.tick ≤ GREATEST_TICK }
        requires number { 1 ≤ id }
        requires new { 1 ≤ new }
        ensures settled { OnOk result (self.new ≡ settled_double self.old id new lot) }
    {
        if let Some(lot) = lot {
            self.leave(Decided::Double(id))?;
            self.settle(new, lot)?;
        }
        Ok(())
    }

    // Draws the fate of a copy, whose double would have the number `new`, and follows it. Returns
    // the number of the next double.
    fn decide_one(
        &mut self,
        rates: &Rates,
        unicast: bool,
        id: u64,
        new: u64,
    ) -> Result<u64, NoMemory>
        requires tick { self.old.tick ≤ GREATEST_TICK }
        requires number { 1 ≤ id }
        requires new { 1 ≤ new }
        requires numbers { new + 1 < 2 ^ 64 }
        ensures decided { OnOk result (self.new ≡ decided_one rates.now unicast id new self.old) }
        ensures next { IfOk result (λ n.
            n ≡ number_behind new (draw rates.now unicast self.old.rng).fate.double) }
    {
        let fate = draw_fate(rates, unicast, &mut self.rng);
        self.settle_double(id, new, fate.double)?;
        self.settle(id, fate.lot)?;
        Ok(new + u64::from(fate.double.is_some()))
    }

    /// Decides what happens to the copies of a cast, which are numbered from `first` on; their
    /// doubles are numbered from `first + count` on. After a lack of memory nothing is known of the
    /// channel.
    pub fn decide(
        &mut self,
        rates: &Rates,
        unicast: bool,
        count: usize,
        first: u64,
    ) -> Result<(), NoMemory>
        requires tick { self.old.tick ≤ GREATEST_TICK }
        requires first { 1 ≤ first }
        requires numbers { first + 2 * count < 2 ^ 64 }
        ensures decided { OnOk result
            (self.new ≡ decided rates.now unicast count first (first + count) self.old) }
        ensures few { OnOk result (length self.new.left ≤ length self.old.left + 3 * count) }
    {
        let end = first + count as u64;
        let mut new = end;
        for id in first..end {
            new = self.decide_one(rates, unicast, id, new)?;
        }
        Ok(())
    }

    /// Decides what happens to a double that the input has made: it draws only its delay. After a
    /// lack of memory nothing is known of the channel.
    pub fn delay_double(&mut self, rates: &Rates, id: u64) -> Result<(), NoMemory>
        requires tick { self.old.tick ≤ GREATEST_TICK }
        requires number { 1 ≤ id }
        ensures { OnOk result (self.new ≡ with_double rates.now id self.old) }
    {
        let delay = draw_delay(rates, &mut self.rng);
        self.plan_copy(id, delay)
    }
}
