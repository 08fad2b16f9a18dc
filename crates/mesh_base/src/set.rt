//! Sets of nodes.
ghost use Rattle.std.specs.Prelude.{◌≡◌, ◌<◌, ◌≤◌, ◌↔◌, IsTrue, IfSome, length, slice_get};
ghost use Rattle.std.specs.FinSet as set;
ghost use Rattle.std.specs.Int.RustNames.{count_ones};
ghost use Rattle.mesh_base.specs.Members.{IsLeastFrom, IsLeastBit, IsNthBit, member_list, rank};

use std::marker::Model;

/// A set of nodes, each an index below 256, as four words of bits.
#[derive(Clone, Copy)]
pub struct NodeSet {
    words: [u64; 4],
}

impl Model for NodeSet {
    ghost use Rattle.std.specs.Coded.{coded_ℕ};
    ghost use Rattle.std.specs.FinSet as set;
    ghost use Rattle.mesh_base.specs.Members.{NodeIds, members, AreWords};

    ghost Value = { NodeIds };

    ghost coded = { set.code coded_ℕ };

    ghost view = { λ a. members a.words };

    ghost invariant = { λ a. AreWords a.words };

    ghost use Rattle.std.proofs.Common.{ap};
    ghost use Rattle.mesh_base.specs.Members.{words_of};
    ghost use Rattle.mesh_base.specs.Words.{words_again};

    ghost inverse = { λ s. record { words = words_of s } };

    ghost inverse_ok = { λ a h. ap (λ ws. record { words = ws }) (words_again a.words h) };
}

impl NodeSet {
    /// The empty set.
    pub fn new() -> NodeSet
        ensures { result ≡ set.empty }
    {
        NodeSet { words: [0; 4] }
    }

    /// Adds node i.
    pub fn add(&mut self, i: usize)
        requires { i < 256 }
        ensures { self.new ≡ set.insert self.old i }
    {
        self.words[i / 64] |= 1 << (i % 64);
    }

    /// Removes node i, if it is a member.
    pub fn remove(&mut self, i: usize)
        requires { i < 256 }
        ensures { self.new ≡ set.remove self.old i }
    {
        self.words[i / 64] &= !(1 << (i % 64));
    }

    /// Whether node i is a member.
    pub fn has(&self, i: usize) -> bool
        ensures value { result ≡ set.contains self.now i }
        ensures below { IsTrue result → i < 256 }
    {
        i < 256 && (self.words[i / 64] >> (i % 64)) & 1 == 1
    }

    /// Adds the members of o.
    pub fn join(&mut self, o: &NodeSet)
        ensures { self.new ≡ set.union self.old o.now }
    {
        let a = self.words;
        let b = o.words;
        self.words = [a[0] | b[0], a[1] | b[1], a[2] | b[2], a[3] | b[3]];
    }

    /// Keeps only the members that o has too.
    pub fn meet(&mut self, o: &NodeSet)
        ensures { self.new ≡ set.intersection self.old o.now }
    {
        let a = self.words;
        let b = o.words;
        self.words = [a[0] & b[0], a[1] & b[1], a[2] & b[2], a[3] & b[3]];
    }

    /// Removes the members of o.
    pub fn leave(&mut self, o: &NodeSet)
        ensures { self.new ≡ set.difference self.old o.now }
    {
        let a = self.words;
        let b = o.words;
        self.words = [a[0] & !b[0], a[1] & !b[1], a[2] & !b[2], a[3] & !b[3]];
    }

    /// Whether the two sets have the same members.
    pub fn same(&self, o: &NodeSet) -> bool
        ensures { IsTrue result ↔ (self.now ≡ o.now) }
    {
        self.words == o.words
    }

    /// The least member that is not below i. None if there is none. It looks at each word at most
    /// once, and at no member but the one found.
    pub fn next_from(&self, i: usize) -> Option<usize>
        ensures least { IsLeastFrom self.now i result }
        ensures below { IfSome result (λ m. m < 256) }
    {
        let words = &self.words;
        if i >= 256 {
            return None;
        }
        let first = i / 64;
        if let Some(index) = least_bit(words[first], i % 64) {
            return Some(64 * first + index);
        }
        for k in first + 1..4 {
            if let Some(index) = least_bit(words[k], 0) {
                return Some(64 * k + index);
            }
        }
        None
    }

    /// How many members there are.
    pub fn count(&self) -> usize
        ensures value { result ≡ length (member_list self.now) }
        ensures few { result ≤ 256 }
    {
        let words = &self.words;
        let low = words[0].count_ones() + words[1].count_ones();
        let high = words[2].count_ones() + words[3].count_ones();
        (low + high) as usize
    }

    /// The rank of i: how many members are below it. Bits are counted, and no member is looked at.
    pub fn count_below(&self, i: usize) -> usize
        ensures value { result ≡ rank self.now i }
        ensures few { result ≤ 256 }
    {
        let words = &self.words;
        if i >= 256 {
            return self.count();
        }
        let word = i / 64;
        let mut count = 0;
        for k in 0..word {
            count += words[k].count_ones() as usize;
        }
        let below = (1 << (i % 64)) - 1;
        count + (words[word] & below).count_ones() as usize
    }

    /// The member of rank k: the k-th, counted from 0, in ascending order. None if there are only k
    /// members or fewer. Bits are counted, and no other member is looked at.
    pub fn nth(&self, k: usize) -> Option<usize>
        ensures value { result ≡ slice_get (member_list self.now) k }
        ensures below { IfSome result (λ m. m < 256) }
    {
        let words = &self.words;
        let mut rest = k;
        for at in 0..4 {
            let here = words[at].count_ones() as usize;
            if rest < here {
                return Some(64 * at + nth_bit(words[at], rest));
            }
            rest -= here;
        }
        None
    }

    /// Whether there is no member.
    #[tactic(auto, using(crate::proofs::Least::none_from_empty, crate::proofs::Least::some_not_empty))]
    pub fn is_empty(&self) -> bool
        ensures { IsTrue result ↔ (self.now ≡ set.empty) }
    {
        self.next_from(0).is_none()
    }
}

// The index of the least bit of the word that is not below `from`.
#[tactic(auto, using(crate::proofs::Least::no_bit, crate::proofs::Least::lowest_bit))]
fn least_bit(word: u64, from: usize) -> Option<usize>
    requires { from < 64 }
    ensures { IsLeastBit word from result }
{
    let rest = word >> from;
    if rest == 0 {
        return None;
    }
    Some(from + rest.trailing_zeros() as usize)
}

// The index of the set bit that has k set bits of the word below it. Six halvings find it: among
// the `width` bits from `base` on, the set bit with `rest` set bits below it is in the lower half
// if that half has more than `rest` of them, and in the upper half otherwise.
fn nth_bit(word: u64, k: usize) -> usize
    requires { k < count_ones word }
    ensures { IsNthBit word k result }
{
    let mut base = 0;
    let mut rest = k;
    let mut width = 64;
    'halves: while width > 1 {
        let half = width / 2;
        let low = ((word >> base) & ((1 << half) - 1)).count_ones() as usize;
        if rest < low {
            width = half;
        } else {
            rest -= low;
            base += half;
            width -= half;
        }
    }
    base
}
