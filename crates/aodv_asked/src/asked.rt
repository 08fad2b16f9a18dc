//! The requests that a node has seen.
ghost use Rattle.std.specs.Prelude.{◌≡◌, ◌≢◌, ◌<◌, ◌≤◌, ◌+◌, ◌⊎◌, ◌↔◌, ℕ, true, length, slice_index, IfOk, IfSome, IsNone, IsOk, OnOk, OnErr, IsTrue};
ghost use Rattle.std.specs.FinSet as sets;
ghost use Rattle.aodv_model.specs.Cores.{last_request_id, next_request_id};
ghost use Rattle.aodv_asked.specs.Requests.{is_near, ids_beside, IsLeastIdFrom};
ghost use Rattle.aodv_asked.specs.Tops.{AreNoted};

use crate::ids::Ids;
use crate::interval::Interval;
use mesh_base::{NoMemory, NodeSet};
use std::alloc::Global;
use std::marker::Model;

/// For each originator, the ids of its requests that were seen. The last interval of its ids is in
/// an array of its own, with 8 bytes for each originator: most requests that are heard are copies
/// of the newest one, and these look at no row. `roomy` has the originators whose row is known to
/// have room. What is read for each request that is heard, `tops` and `roomy`, is kept together.
#[derive(Drop)]
pub struct Asked {
    tops: Vec<Interval>,
    roomy: NodeSet,
    rows: Vec<Ids>,
    alloc: Global,
}

impl Model for Asked {
    ghost use Rattle.aodv_asked.specs.Requests.{RoomySeen, seen_code};

    ghost Value = { RoomySeen };

    ghost coded = { seen_code };

    ghost use Rattle.aodv_asked.specs.Rows.{pairs_of, rooms_of};
    ghost use Rattle.aodv_asked.specs.Tops.{rows_with_tops, AreKept};

    ghost view = { λ a. record {
      pairs = pairs_of (rows_with_tops a.rows.items a.tops.items);
      rooms = rooms_of (rows_with_tops a.rows.items a.tops.items);
    } };

    ghost invariant = { λ a. AreKept a.rows.items a.tops.items a.roomy };
}

// Notes whether o's row has room. For a node from index 256 on nothing is noted.
fn note_room(roomy: &mut NodeSet, o: usize, has_room: bool)
    ensures { AreNoted roomy.old o has_room roomy.new }
{
    if has_room {
        if o < 256 {
            roomy.add(o);
        }
    } else if roomy.has(o) {
        roomy.remove(o);
    }
}

#[tactic(auto, using(crate::proofs::KeptLaws::nodes_seen))]
impl Asked {
    /// No requests, in a mesh with this many nodes, and room for two ids of each.
    pub fn new(alloc: Global, nodes: usize) -> Result<Asked, NoMemory>
        ensures pairs { IfOk result (λ asked. asked.pairs ≡ sets.empty) }
        ensures nodes { IfOk result (λ asked. length asked.rooms ≡ nodes) }
        ensures rooms { IfOk result (λ asked. (o : ℕ) → o < nodes → slice_index asked.rooms o ≡ 2) }
    {
        let tops = vec![in alloc; Interval::none(); nodes]?;
        let mut rows = Vec::with_capacity(alloc, nodes)?;
        let mut roomy = NodeSet::new();
        for o in 0..nodes {
            rows.push(Ids::new())?;
            note_room(&mut roomy, o, true);
        }
        Ok(Asked {
            tops,
            roomy,
            rows,
            alloc,
        })
    }

    /// The number of nodes of the mesh. Each request that was seen is of one of them.
    pub fn nodes(&self) -> usize
        ensures value { result ≡ length self.now.rooms }
        ensures within { (o id : ℕ) → sets.contains self.now.pairs (o, id) ≡ true → o < result }
    {
        self.rows.len()
    }

    /// Whether o's request with this id was seen. For an id that isn't below the last interval it
    /// looks at no row; for any other it is a binary search.
    #[inline(always)]
    pub fn has(&self, o: usize, id: u32) -> bool
        requires { o < length self.now.rooms }
        ensures { result ≡ sets.contains self.now.pairs (o, id) }
    {
        let top = self.tops[o];
        if top.first <= id {
            return id <= top.last;
        }
        self.rows[o].has(id)
    }

    /// Makes room for one more id of o. It asks for memory only if there is no room yet.
    #[inline(always)]
    pub fn make_room(&mut self, o: usize) -> Result<(), NoMemory>
        requires { o < length self.old.rooms }
        ensures pairs { self.new.pairs ≡ self.old.pairs }
        ensures nodes { length self.new.rooms ≡ length self.old.rooms }
        ensures here { OnOk result (0 < slice_index self.new.rooms o) }
        ensures there { 0 < slice_index self.old.rooms o → IsOk result }
        ensures still { 0 < slice_index self.old.rooms o → self.new ≡ self.old }
        ensures keeps { (q : ℕ) → slice_index self.old.rooms q ≤ slice_index self.new.rooms q }
        ensures refused { OnErr result (self.new ≡ self.old) }
    {
        // There nearly always is room, and no row is looked at to see that.
        if self.roomy.has(o) {
            return Ok(());
        }
        let ids = &mut self.rows[o];
        ids.make_room(self.alloc)?;
        note_room(&mut self.roomy, o, true);
        Ok(())
    }

    /// Records that o's request with this id was seen. It uses up at most the room for one id of o.
    /// It needs no room if the id or one next to it was seen from o already.
    pub fn insert(&mut self, o: usize, id: u32)
        requires within { o < length self.old.rooms }
        requires room { (0 < slice_index self.old.rooms o) ⊎ IsTrue (is_near self.old.pairs o id) }
        ensures pairs { self.new.pairs ≡ sets.insert self.old.pairs (o, id) }
        ensures nodes { length self.new.rooms ≡ length self.old.rooms }
        ensures used { slice_index self.old.rooms o ≤ slice_index self.new.rooms o + 1 }
        ensures others { (q : ℕ) → q ≢ o
            → slice_index self.new.rooms q ≡ slice_index self.old.rooms q }
    {
        let top = self.tops[o];
        if let Some(grown) = top.grown(id) {
            self.tops[o] = grown;
            return;
        }
        let ids = &mut self.rows[o];
        let new_top = ids.insert_beside(top, id);
        let has_room = ids.has_room();
        self.tops[o] = new_top;
        note_room(&mut self.roomy, o, has_room);
    }

    /// One more than the greatest id of o that was seen, or 1 if none was. None means that the
    /// greatest is the last of 32 bits. It looks at no other id.
    pub fn next_id(&self, o: usize) -> Option<u32>
        requires { o < length self.now.rooms }
        ensures full { IsNone result ↔ (last_request_id self.now.pairs o ≡ 4294967295) }
        ensures value { IfSome result (λ id. id ≡ next_request_id self.now.pairs o) }
    {
        match self.tops[o].greatest() {
            Some(u32::MAX) => None,
            Some(last) => Some(last + 1),
            None => Some(1),
        }
    }

    /// How many ids of o were seen. It doesn't look at each id: those that follow one another are
    /// counted in one step.
    pub fn count(&self, o: usize) -> u64
        requires { o < length self.now.rooms }
        ensures { result ≡ length (ids_beside self.now.pairs o) }
    {
        self.rows[o].count() + self.tops[o].count()
    }

    /// The least id of o that was seen.
    pub fn first(&self, o: usize) -> Option<u32>
        requires { o < length self.now.rooms }
        ensures { IsLeastIdFrom self.now.pairs o 0 result }
    {
        self.least_from(o, 0)
    }

    /// The least id of o that was seen and is above `id`.
    pub fn after(&self, o: usize, id: u32) -> Option<u32>
        requires { o < length self.now.rooms }
        ensures { IsLeastIdFrom self.now.pairs o (id + 1) result }
    {
        self.least_from(o, u64::from(id) + 1)
    }

    // The least id of o that was seen and isn't below `from`.
    fn least_from(&self, o: usize, from: u64) -> Option<u32>
        requires { o < length self.now.rooms }
        ensures { IsLeastIdFrom self.now.pairs o from result }
    {
        match self.rows[o].least_from(from) {
            Some(id) => Some(id),
            None => self.tops[o].least_from(from),
        }
    }
}
