//! Destinations with a sequence number each.
ghost use Rattle.std.specs.Prelude.{◌≡◌, ◌<◌, ◌≤◌, ◌↔◌, ◌++◌, ◌∷◌, [], ℕ, length, get_or, slice_get, Some, None, IsTrue};
ghost use Rattle.std.specs.FinMap as maps;
ghost use Rattle.aodv_model.specs.Destinations.{IsRising};

use arrayvec::ArrayVec;
use mesh_base::MOST_NODES;
use std::marker::Model;

/// At most 200 destinations in rising order, each with a sequence number. It allocates nothing.
#[derive(Drop)]
pub struct Dests {
    pairs: ArrayVec<(usize, u32), MOST_NODES>,
}

impl Model for Dests {
    ghost use Rattle.std.specs.Coded.{coded_ℕ};
    ghost use Rattle.std.specs.FinMap as maps;
    ghost use Rattle.aodv_model.specs.Destinations.{Numbers, IsRising};

    ghost Value = { Numbers };

    ghost coded = { maps.code coded_ℕ coded_ℕ };

    ghost view = { λ d. maps.from_sorted d.pairs.items };

    ghost invariant = { λ d. IsRising d.pairs.items };
}

// The number of pairs with a destination below d, by binary search.
fn count_below(pairs: &[(usize, u32)], d: usize) -> usize
    requires { IsRising pairs.now }
    ensures within { result ≤ length pairs.now }
    ensures below { (i : ℕ) → i < result → (get_or pairs.now i (0, 0)).0 < d }
    ensures above { (i : ℕ) → result ≤ i → i < length pairs.now
        → d ≤ (get_or pairs.now i (0, 0)).0 }
{
    pairs.partition_point(|pair| pair.0 < d)
}

impl Dests {
    /// No destinations.
    pub fn new() -> Dests
        ensures map { result ≡ maps.empty }
        ensures entries { maps.entries result ≡ [] }
    {
        Dests {
            pairs: ArrayVec::new(),
        }
    }

    /// The number of destinations.
    pub fn len(&self) -> usize
        ensures value { result ≡ length (maps.entries self.now) }
        ensures most { result ≤ MOST_NODES }
    {
        self.pairs.len()
    }

    /// Whether there is no destination.
    pub fn is_empty(&self) -> bool
        ensures { IsTrue result ↔ (self.now ≡ maps.empty) }
    {
        self.pairs.is_empty()
    }

    /// The k-th destination in rising order, counted from 0, and its number.
    pub fn pair(&self, k: usize) -> (usize, u32)
        requires { k < length (maps.entries self.now) }
        ensures { slice_get (maps.entries self.now) k ≡ Some result }
    {
        self.pairs.as_slice()[k]
    }

    /// The sequence number of a destination, if it is there, by binary search.
    pub fn number(&self, d: usize) -> Option<u32>
        ensures { result ≡ maps.get self.now d }
    {
        let pairs = self.pairs.as_slice();
        let index = count_below(pairs, d);
        if index >= pairs.len() {
            return None;
        }
        if pairs[index].0 == d {
            Some(pairs[index].1)
        } else {
            None
        }
    }

    /// Adds a destination that is above all others.
    pub fn push(&mut self, d: usize, n: u32)
        requires room { length (maps.entries self.old) < MOST_NODES }
        requires above { (q : ℕ) → d ≤ q → maps.get self.old q ≡ None }
        ensures map { self.new ≡ maps.insert self.old d n }
        ensures entries { maps.entries self.new ≡ maps.entries self.old ++ (d, n) ∷ [] }
    {
        self.pairs.push((d, n));
    }

    /// Removes all destinations.
    pub fn clear(&mut self)
        ensures map { self.new ≡ maps.empty }
        ensures entries { maps.entries self.new ≡ [] }
    {
        self.pairs.clear();
    }
}
