//! What a routing table does.
ghost use Rattle.std.specs.Prelude.{◌≡◌, ◌<◌, ◌≤◌, ◌↔◌, ℕ, true, false, MatchResult, IsSome, OnOk, OnErr, IsOk};
ghost use Rattle.std.specs.FinMap as maps;
ghost use Rattle.std.specs.FinSet as sets;
ghost use Rattle.mesh_base.specs.Members.{NodeIds, AreAmong};
ghost use Rattle.aodv_model.specs.declared.entry.Flag.TheVariants.{Val};
ghost use Rattle.aodv_model.specs.Tables.{Table as Entries, update, invalidate, add_pre, unreachable_by};
ghost use Rattle.aodv_table.specs.Calls.{IsBelow, with_entry, valid_dests, is_neighbour_in, dests_by, is_past, IsLeastPast};

use crate::merge::{entry_after, entry_by, is_changed, is_neighbour_entry, mark_valid};
use aodv_model::{Dests, Entry, Flag, inc};
use mesh_base::{MOST_NODES, NoMemory, NodeSet};

/// The routing table of a node, however it is kept. Destinations and next hops are nodes of one
/// mesh.
///
/// A destination gets room for an entry by `make_room`, and keeps it. No other call takes memory. A
/// kind of table says how it makes room, and how it reads and writes one entry. What AWN does with
/// tables is defined here, by means of these. A table that keeps the set of its valid destinations,
/// or of the neighbours that were heard, gives its own `valid` and `is_neighbour`.
pub trait Table: Drop {
    /// The entries, by destination.
    ghost entries: { Self → Entries };

    /// The destinations that have room for an entry.
    ghost rooms: { Self → NodeIds };

    /// The number of nodes of the mesh.
    ghost nodes: { Self → ℕ };

    /// The number of nodes of the mesh.
    fn nodes(&self) -> usize
        ensures value { result ≡ nodes self.now }
        ensures most { result ≤ MOST_NODES }
        ensures below { IsBelow (nodes self.now) (entries self.now) };

    /// The entry of d, if it has one. No other entry is looked at.
    fn get(&self, d: usize) -> Option<Entry>
        requires { d < nodes self.now }
        ensures value { result ≡ maps.get (entries self.now) d }
        ensures room { IsSome result → sets.contains (rooms self.now) d ≡ true };

    /// Whether d has room for an entry.
    fn has_room(&self, d: usize) -> bool
        requires { d < nodes self.now }
        ensures { result ≡ sets.contains (rooms self.now) d };

    /// Makes room for an entry of d. It asks for memory only if there is no room yet.
    fn make_room(&mut self, d: usize) -> Result<(), NoMemory>
        requires { d < nodes self.old }
        ensures here { OnOk result (sets.contains (rooms self.new) d ≡ true) }
        ensures there { sets.contains (rooms self.old) d ≡ true → IsOk result }
        ensures still { sets.contains (rooms self.old) d ≡ true → rooms self.new ≡ rooms self.old }
        ensures keeps { AreAmong (rooms self.old) (rooms self.new) }
        ensures refused { OnErr result (rooms self.new ≡ rooms self.old) }
        ensures entries { entries self.new ≡ entries self.old }
        ensures nodes { nodes self.new ≡ nodes self.old };

    /// Makes e the entry of d, or removes d's entry. What d had before isn't kept.
    fn put(&mut self, d: usize, e: Option<Entry>)
        requires below { d < nodes self.old }
        requires room { sets.contains (rooms self.old) d ≡ true }
        ensures entries { entries self.new ≡ with_entry (entries self.old) d e }
        ensures rooms { rooms self.new ≡ rooms self.old }
        ensures nodes { nodes self.new ≡ nodes self.old };

    /// Takes r, a valid entry, for the destination d (AWN's update), and returns whether the
    /// entries changed. It is inlined into its callers, which know most of r.
    #[inline(always)]
    fn update(&mut self, d: usize, r: Entry) -> bool
        requires below { d < nodes self.old }
        requires room { sets.contains (rooms self.old) d ≡ true }
        requires valid { r.flag ≡ Val }
        ensures entries { entries self.new ≡ update (entries self.old) d r }
        ensures same { (result ≡ false) ↔ (entries self.new ≡ entries self.old) }
        ensures rooms { rooms self.new ≡ rooms self.old }
        ensures nodes { nodes self.new ≡ nodes self.old }
    {
        let before = self.get(d);
        let after = entry_after(before, r);
        self.put(d, Some(after));
        is_changed(&before, &after)
    }

    /// Makes the entries of these destinations invalid, with the numbers stated (AWN's invalidate).
    fn invalidate(&mut self, dests: &Dests)
        ensures entries { entries self.new ≡ invalidate (entries self.old) dests.now }
        ensures rooms { rooms self.new ≡ rooms self.old }
        ensures nodes { nodes self.new ≡ nodes self.old }
    {
        for k in 0..dests.len() {
            let (d, n) = dests.pair(k);
            if d < self.nodes() {
                if let Some(entry) = self.get(d) {
                    self.put(
                        d,
                        Some(Entry {
                            dsn: n,
                            flag: Flag::Inv,
                            ..entry
                        }),
                    );
                }
            }
        }
    }

    /// The nodes join the precursors of d's entry, if it has one (AWN's addpreRT).
    fn add_pre(&mut self, d: usize, p: &NodeSet)
        requires { d < nodes self.old }
        ensures entries { entries self.new ≡ add_pre (entries self.old) d p.now }
        ensures rooms { rooms self.new ≡ rooms self.old }
        ensures nodes { nodes self.new ≡ nodes self.old }
    {
        if let Some(mut entry) = self.get(d) {
            entry.pre.join(p);
            self.put(d, Some(entry));
        }
    }

    /// The destinations that have a valid entry (AWN's vD). All entries are looked at; a table that
    /// keeps this set looks at none.
    fn valid(&self) -> NodeSet
        ensures { result ≡ valid_dests (entries self.now) }
    {
        let nodes = self.nodes();
        let mut valid = NodeSet::new();
        for d in 0..nodes {
            mark_valid(&mut valid, d, &self.get(d));
        }
        valid
    }

    /// Whether d's entry is that of a neighbour that was heard: valid, one hop away by d itself,
    /// and with its number marked as unknown, whatever that number and its precursors are. A table
    /// that keeps the set of these neighbours looks at no entry.
    fn is_neighbour(&self, d: usize) -> bool
        requires { d < nodes self.now }
        ensures { result ≡ is_neighbour_in (entries self.now) d }
    {
        is_neighbour_entry(d, &self.get(d))
    }

    /// The destinations that have a valid entry with that next hop. All valid entries are looked
    /// at.
    fn through(&self, next: usize) -> NodeSet
        ensures { result ≡ dests_by (entries self.now) next }
    {
        let nodes = self.nodes();
        let valid = self.valid();
        let mut found = NodeSet::new();
        let mut start = 0;
        while let Some(d) = valid.next_from(start) {
            prove!(d < nodes);
            if entry_by(self.get(d), next).is_some() {
                found.add(d);
            }
            start = d + 1;
        }
        found
    }

    /// Puts into `out`, in place of what it held, the destinations that have a valid entry with
    /// that next hop, each with its number raised. The error is the least of them whose number is
    /// the greatest and can't be raised; what `out` then holds is left open. All valid entries are
    /// looked at, up to that one.
    fn dests_via(&self, next: usize, out: &mut Dests) -> Result<(), usize>
        ensures { let raised = unreachable_by (entries self.now) next in
            MatchResult result
            (λ _. (is_past raised ≡ false) × (out.new ≡ raised)) (IsLeastPast raised) }
    {
        out.clear();
        let nodes = self.nodes();
        let valid = self.valid();
        let mut start = 0;
        while let Some(d) = valid.next_from(start) {
            prove!(d < nodes);
            if let Some(entry) = entry_by(self.get(d), next) {
                match inc(entry.dsn) {
                    Some(n) => out.push(d, n),
                    None => return Err(d),
                }
            }
            start = d + 1;
        }
        Ok(())
    }
}
