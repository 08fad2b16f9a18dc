//! Calls that are counted, some of which fail by plan.
ghost use Rattle.std.specs.Prelude.{◌≡◌, ◌≤◌, ◌+◌, IfOk, nat_eq};
ghost use Rattle.std.specs.List.{list_any};
ghost use Rattle.mesh_io.specs.Calls.{no_calls, fails_next, with_call, with_fault};

use mesh_base::NoMemory;
use std::alloc::Global;
use std::marker::Model;

/// How many calls were made and how many failed, and the numbers of those that are to fail.
#[derive(Drop)]
pub struct Calls {
    planned: Vec<u64>,
    made: u64,
    failed: u64,
}

impl Model for Calls {
    ghost use Rattle.mesh_io.specs.Calls.{CallsSeen};

    ghost Value = { CallsSeen };

    ghost view = { λ c. record { planned = c.planned.items; made = c.made; failed = c.failed } };
}

// Whether the call after `made` calls is to fail. No call past number 2^64 - 1 is.
fn is_planned(planned: &[u64], made: u64) -> bool
    ensures { result ≡ list_any (λ number. nat_eq number (made + 1)) planned.now }
{
    match made.checked_add(1) {
        Some(number) => planned.contains(&number),
        None => false,
    }
}

impl Calls {
    /// No calls made yet; those with these numbers, counted from 1, are to fail.
    pub fn new(alloc: Global, planned: &[u64]) -> Result<Calls, NoMemory>
        ensures { IfOk result (λ calls. calls ≡ no_calls planned.now) }
    {
        Ok(Calls {
            planned: planned.to_vec(alloc)?,
            made: 0,
            failed: 0,
        })
    }

    /// Counts a call, and returns whether it is to fail.
    pub fn next(&mut self) -> bool
        ensures fails { result ≡ fails_next self.old }
        ensures counted { self.new ≡ with_call self.old }
    {
        let fails = is_planned(self.planned.as_slice(), self.made);
        self.made = self.made.saturating_add(1);
        fails
    }

    /// Counts a fault.
    pub fn fail(&mut self)
        ensures counted { self.new ≡ with_fault self.old }
        ensures later { self.old.failed ≤ self.new.failed }
    {
        self.failed = self.failed.saturating_add(1);
    }
}
