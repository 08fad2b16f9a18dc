//! Messages over the nodes of a mesh: each names a node by its index.

/// A route request.
#[derive(Clone, Copy)]
pub struct Request {
    pub hops: u8,
    pub id: u32,
    pub dip: usize,
    pub dsn: u32,
    /// Whether the destination's number is known. Even if it isn't, `dsn` may be other than 0.
    pub known: bool,
    pub oip: usize,
    pub osn: u32,
}

/// A route reply.
#[derive(Clone, Copy)]
pub struct Reply {
    pub hops: u8,
    pub dip: usize,
    pub dsn: u32,
    pub oip: usize,
}

/// A datum on its way, with its destination and its originator.
#[derive(Clone, Copy)]
pub struct Datum<'a> {
    pub dip: usize,
    pub oip: usize,
    pub body: &'a [u8],
}
