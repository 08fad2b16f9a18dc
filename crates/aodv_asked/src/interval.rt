//! Intervals of ids.
ghost use Rattle.std.specs.Prelude.{◌≡◌, ◌<◌, ◌≤◌, ◌+◌, ◌-◌, ◌⊎◌, IfSome, IsNone};
ghost use Rattle.mesh_base.specs.Members.{IsLeastFrom};
ghost use Rattle.aodv_asked.specs.Intervals.{AreApart, IsGreatest};
ghost use Rattle.aodv_asked.specs.Spots.{IsPosition, total};
ghost use Rattle.aodv_asked.specs.Tops.{no_top, ids_of, HasOneMore};

/// The ids from `first` to `last`. If there are none, `first` is 1 and `last` is 0.
#[derive(Clone, Copy)]
pub(crate) struct Interval {
    pub(crate) first: u32,
    pub(crate) last: u32,
}

/// Where an interval is in its list: its chunk, and its offset there.
#[derive(Clone, Copy)]
pub(crate) struct Spot {
    pub(crate) chunk: usize,
    pub(crate) offset: usize,
}

/// How many intervals end before `from`: a binary search.
pub(crate) fn count_before(intervals: &[Interval], from: u64) -> usize
    requires { AreApart 0 intervals.now }
    ensures { IsPosition intervals.now from result }
{
    intervals.partition_point(|v| u64::from(v.last) < from)
}

/// `count` plus the number of ids of the intervals. It doesn't look at each id.
pub(crate) fn count_on(mut count: u64, intervals: &[Interval]) -> u64
    requires { AreApart count intervals.now }
    ensures { result ≡ count + total intervals.now }
{
    for v in intervals {
        count += u64::from(v.last - v.first) + 1;
    }
    count
}

/// The number n in 32 bits. It is at most `most`, which has 32 bits.
pub(crate) fn narrowed(n: u64, most: u32) -> u32
    requires { n ≤ most }
    ensures { result ≡ n }
{
    // This tells the prover that `most` is a number of 32 bits.
    let _most = most;
    n as u32
}

impl Interval {
    /// The interval without ids.
    pub(crate) fn none() -> Interval
        ensures { result ≡ no_top }
    {
        Interval { first: 1, last: 0 }
    }

    /// The interval with one more id, if the id is in it or right above it, or if the interval has
    /// none. None means that the id is below the interval, or above it and not next to it.
    pub(crate) fn grown(self, id: u32) -> Option<Interval>
        ensures grown { IfSome result (λ grown. HasOneMore self id grown) }
        ensures there { IfSome result (λ grown. grown.first ≤ grown.last) }
        ensures some { IsNone result → self.first ≤ self.last }
        ensures apart { IsNone result → (id < self.first) ⊎ (self.last + 1 < id) }
    {
        if self.last < self.first {
            return Some(Interval {
                first: id,
                last: id,
            });
        }
        if id < self.first || u64::from(self.last) + 1 < u64::from(id) {
            return None;
        }
        Some(Interval {
            first: self.first,
            last: self.last.max(id),
        })
    }

    /// How many ids there are.
    pub(crate) fn count(self) -> u64
        ensures value { result ≡ self.last + 1 - self.first }
        ensures few { self.first + result ≤ 4294967296 }
    {
        (u64::from(self.last) + 1).saturating_sub(u64::from(self.first))
    }

    /// The greatest id.
    pub(crate) fn greatest(self) -> Option<u32>
        ensures { IsGreatest (ids_of self) result }
    {
        if self.last < self.first {
            return None;
        }
        Some(self.last)
    }

    /// The least id that is not below `from`.
    pub(crate) fn least_from(self, from: u64) -> Option<u32>
        ensures { IsLeastFrom (ids_of self) from result }
    {
        let least = from.max(u64::from(self.first));
        if u64::from(self.last) < least {
            return None;
        }
        Some(narrowed(least, self.last))
    }
}
