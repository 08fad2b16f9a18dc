//! Addresses, as RFC 3561 section 5 has them in its packets and as a schedule denotes them.
ghost use Rattle.std.specs.Prelude.{◌≡◌, ◌+◌, ◌≤◌, ◌<◌, ◌∷◌, [], true, false, IsTrue, IfSome, IfNone};
ghost use Rattle.std.specs.Char.{is_ascii_digit};
ghost use Rattle.std.specs.Option.{option_map};
ghost use Rattle.mesh_base.specs.Numbers.{number_up_to};
ghost use Rattle.mesh_base.specs.Parts.{parts};
ghost use Rattle.mesh_base.specs.Addresses.{address_of};
ghost use Rattle.mesh_base.specs.Octets.{first_octet, IsDotAt};

/// The address of a node: its four numbers, the first in the highest byte.
#[derive(Clone, Copy, Debug, Default, PartialEq, Eq, PartialOrd, Ord)]
pub struct Addr(pub u32);

#[inline(always)]
fn digit(b: u8) -> Option<u32>
    ensures some { IfSome result (λ n. (is_ascii_digit b ≡ true) × (b ≡ 48 + n)) }
    ensures within { IfSome result (λ n. n ≤ 9) }
    ensures none { IfNone result (is_ascii_digit b ≡ false) }
{
    if !b.is_ascii_digit() {
        return None;
    }
    Some(u32::from(b - b'0'))
}

// One of the four numbers, from one, two or three bytes.

#[inline(always)]
fn of_one(a: u8) -> Option<u32>
    ensures value { result ≡ number_up_to 255 (a ∷ []) }
    ensures within { IfSome result (λ n. n ≤ 255) }
{
    let n = digit(a)?;
    Some(n)
}

#[inline(always)]
fn of_two(a: u8, b: u8) -> Option<u32>
    ensures value { result ≡ number_up_to 255 (a ∷ b ∷ []) }
    ensures within { IfSome result (λ n. n ≤ 255) }
{
    if a == b'0' {
        return None;
    }
    let m = digit(a)?;
    let n = digit(b)?;
    Some(10 * m + n)
}

#[inline(always)]
fn of_three(a: u8, b: u8, c: u8) -> Option<u32>
    ensures value { result ≡ number_up_to 255 (a ∷ b ∷ c ∷ []) }
    ensures within { IfSome result (λ n. n ≤ 255) }
{
    if a == b'0' {
        return None;
    }
    let l = digit(a)?;
    let m = digit(b)?;
    let n = digit(c)?;
    let whole = 100 * l + 10 * m + n;
    if whole > 255 {
        return None;
    }
    Some(whole)
}

// The whole text as one number.
#[inline(always)]
pub(crate) fn octet(text: &[u8]) -> Option<u32>
    ensures value { result ≡ number_up_to 255 text.now }
    ensures within { IfSome result (λ n. n ≤ 255) }
{
    match text {
        [a] => of_one(*a),
        [a, b] => of_two(*a, *b),
        [a, b, c] => of_three(*a, *b, *c),
        _ => None,
    }
}

// Whether there is a dot at an index.
#[inline(always)]
fn is_dot(text: &[u8], at: usize) -> bool
    ensures yes { IsTrue result → IsDotAt text.now at }
    ensures no { result ≡ false → ¬ IsDotAt text.now at }
{
    at < text.len() && text[at] == b'.'
}

// The number before the first dot, and the bytes after the dot.
#[inline(always)]
fn octet_and_rest(text: &[u8]) -> Option<(u32, &[u8])>
    ensures value { option_map (λ r. (r.0, parts 46 r.1.now)) result
        ≡ first_octet (parts 46 text.now) }
    ensures within { IfSome result (λ r. r.0 ≤ 255) }
{
    if is_dot(text, 1) {
        return Some((of_one(text[0])?, &text[2..]));
    }
    if is_dot(text, 2) {
        return Some((of_two(text[0], text[1])?, &text[3..]));
    }
    if is_dot(text, 3) {
        return Some((of_three(text[0], text[1], text[2])?, &text[4..]));
    }
    None
}

impl Addr {
    /// Reads four numbers from 0 to 255 without leading zeros, joined by dots. None for any other
    /// text.
    pub fn parse(text: &[u8]) -> Option<Addr>
        ensures { option_map (λ a. a.0) result ≡ address_of text.now }
    {
        let (w, rest) = octet_and_rest(text)?;
        let (x, rest) = octet_and_rest(rest)?;
        let (y, rest) = octet_and_rest(rest)?;
        let z = octet(rest)?;
        Some(Addr(16777216 * w + 65536 * x + 256 * y + z))
    }
}
