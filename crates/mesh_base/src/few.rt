//! A few bytes, in an array that is copied whole.
ghost use Rattle.std.specs.Prelude.{◌≡◌, ◌≤◌, ◌↔◌, [], length, take, IfSome, IsSome};

/// At most `CAPACITY` bytes: the first ones of an array, which is copied whole.
#[derive(Clone, Copy)]
pub struct InlineBytes<const CAPACITY: usize> {
    bytes: [u8; CAPACITY],
    width: usize,
    ghost fits: { width ≤ CAPACITY },
}

/// A short text: at most 16 bytes.
pub type ShortText = InlineBytes<16>;

impl<const CAPACITY: usize> Default for InlineBytes<CAPACITY> {
    ghost use Rattle.mesh_base.specs.InlineBytes.{inline_bytes};

    ghost is_default = { λ few. inline_bytes few ≡ [] };

    fn default() -> Self {
        InlineBytes {
            bytes: [0; CAPACITY],
            width: 0,
        }
    }
}

impl<const CAPACITY: usize> InlineBytes<CAPACITY> {
    ghost use Rattle.mesh_base.specs.InlineBytes.{inline_bytes};

    /// The first `width` bytes of an array.
    #[inline(always)]
    pub fn front_of(bytes: [u8; CAPACITY], width: usize) -> Self
        requires { width ≤ CAPACITY }
        ensures { inline_bytes result ≡ take width bytes.entry }
    {
        InlineBytes { bytes, width }
    }

    /// A copy of b. None if b is too long.
    #[inline]
    pub fn of(b: &[u8]) -> Option<Self>
        ensures value { IfSome result (λ few. inline_bytes few ≡ b.now) }
        ensures when { IsSome result ↔ (length b.now ≤ CAPACITY) }
    {
        if b.len() > CAPACITY {
            return None;
        }
        let mut bytes = [0; CAPACITY];
        bytes[..b.len()].copy_from_slice(b);
        Some(InlineBytes {
            bytes,
            width: b.len(),
        })
    }

    /// How many bytes there are.
    #[inline(always)]
    pub fn width(&self) -> usize
        ensures value { result ≡ length (inline_bytes self.now) }
        ensures short { result ≤ CAPACITY }
    {
        self.width
    }

    /// The array. The bytes are its first ones; what is behind them is any.
    #[inline(always)]
    pub fn whole(&self) -> &[u8; CAPACITY]
        ensures front { take (length (inline_bytes self.now)) result.now ≡ inline_bytes self.now }
        ensures long { length result.now ≡ CAPACITY }
    {
        &self.bytes
    }

    /// The bytes.
    #[inline]
    pub fn as_slice(&self) -> &[u8]
        ensures value { result.now ≡ inline_bytes self.now }
        ensures short { length result.now ≤ CAPACITY }
    {
        &self.bytes[..self.width]
    }
}
