//! An entry of a routing table.
ghost use Rattle.std.specs.Prelude.{◌≡◌, ◌↔◌, IsTrue};

use mesh_base::NodeSet;

/// Whether a destination's sequence number is known.
#[derive(Clone, Copy, PartialEq, Eq)]
pub enum Known {
    /// The number came with a request or a reply.
    Kno,
    /// The route was learnt only by hearing the destination itself. The entry may keep an older
    /// number.
    Unk,
}

/// Whether an entry may be used to forward.
#[derive(Clone, Copy, PartialEq, Eq)]
pub enum Flag {
    /// The entry may be used.
    Val,
    /// The route broke. The entry keeps its hop count and next hop, and the number that the break
    /// gave it.
    Inv,
}

/// The route to one destination, which is its key in the table (RFC 3561, section 2).
#[derive(Clone, Copy)]
pub struct Entry {
    /// The destination's sequence number. 0 is unknown.
    pub dsn: u32,
    /// Whether that number is known.
    pub dsk: Known,
    /// Whether the route is valid.
    pub flag: Flag,
    /// The number of hops to the destination. It is at least 1 in a router's table.
    pub hops: u8,
    /// The next hop towards the destination.
    pub next: usize,
    /// The precursors: neighbours that were told of this route and may use it.
    pub pre: NodeSet,
}

impl Entry {
    /// Whether two entries are equal.
    pub fn same(&self, o: &Entry) -> bool
        ensures { IsTrue result ↔ (self.now ≡ o.now) }
    {
        self.dsn == o.dsn
            && self.dsk == o.dsk
            && self.flag == o.flag
            && self.hops == o.hops
            && self.next == o.next
            && self.pre.same(&o.pre)
    }
}
