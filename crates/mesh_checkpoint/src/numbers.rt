//! Numbers and texts at the start of the bytes. Each reader answers what it has read and the bytes
//! after it, or None if the bytes don't begin with such a value.
ghost use Rattle.std.specs.Prelude.{◌<◌, ◌≤◌, length, IfSome};
ghost use Rattle.std.specs.Int.{w16, w32, w64};
ghost use Rattle.mesh_checkpoint.specs.Formats.{byte, number, truth, text};
ghost use Rattle.mesh_checkpoint.specs.Reading.{Gives};

/// A number from `low` on and below `end`, in one byte.
pub fn byte(bytes: &[u8], low: u8, end: u16) -> Option<(u8, &[u8])>
    ensures value { Gives (λ x. (x.0, x.1.now)) result ((byte low end).get bytes.now) }
    ensures shorter { IfSome result (λ x. length x.1.now < length bytes.now) }
{
    let (first, rest) = bytes.split_first()?;
    if *first < low || u16::from(*first) >= end {
        return None;
    }
    Some((*first, rest))
}

/// A truth value, in one byte.
pub fn truth(bytes: &[u8]) -> Option<(bool, &[u8])>
    ensures value { Gives (λ x. (x.0, x.1.now)) result (truth.get bytes.now) }
    ensures shorter { IfSome result (λ x. length x.1.now < length bytes.now) }
{
    let (byte, rest) = byte(bytes, 0, 2)?;
    Some((byte == 1, rest))
}

/// A number from `low` on and below `end`, in two bytes.
pub fn number16(bytes: &[u8], low: u32, end: u32) -> Option<(u16, &[u8])>
    ensures value { Gives (λ x. (x.0, x.1.now)) result ((number w16 low end).get bytes.now) }
    ensures shorter { IfSome result (λ x. length x.1.now < length bytes.now) }
    ensures below { IfSome result (λ x. x.0 < end) }
{
    if bytes.len() < 2 {
        return None;
    }
    let (front, rest) = bytes.split_at(2);
    let number = u16::from_be_bytes([front[0], front[1]]);
    if u32::from(number) < low || u32::from(number) >= end {
        return None;
    }
    Some((number, rest))
}

/// A number from `low` on and below `end`, in four bytes.
pub fn number32(bytes: &[u8], low: u32, end: u64) -> Option<(u32, &[u8])>
    ensures value { Gives (λ x. (x.0, x.1.now)) result ((number w32 low end).get bytes.now) }
    ensures shorter { IfSome result (λ x. length x.1.now < length bytes.now) }
    ensures from { IfSome result (λ x. low ≤ x.0) }
{
    if bytes.len() < 4 {
        return None;
    }
    let (front, rest) = bytes.split_at(4);
    let number = u32::from_be_bytes([front[0], front[1], front[2], front[3]]);
    if number < low || u64::from(number) >= end {
        return None;
    }
    Some((number, rest))
}

/// A number from `low` on and below `end`, in eight bytes.
pub fn number64(bytes: &[u8], low: u64, end: u64) -> Option<(u64, &[u8])>
    ensures value { Gives (λ x. (x.0, x.1.now)) result ((number w64 low end).get bytes.now) }
    ensures shorter { IfSome result (λ x. length x.1.now < length bytes.now) }
    ensures from { IfSome result (λ x. low ≤ x.0) }
    ensures below { IfSome result (λ x. x.0 < end) }
{
    if bytes.len() < 8 {
        return None;
    }
    let (front, rest) = bytes.split_at(8);
    let number = u64::from_be_bytes([
        front[0], front[1], front[2], front[3], front[4], front[5], front[6], front[7],
    ]);
    if number < low || number >= end {
        return None;
    }
    Some((number, rest))
}

/// Bytes, after their length, which is from `low` on and below `end`.
pub fn text(bytes: &[u8], low: u32, end: u32) -> Option<(&[u8], &[u8])>
    ensures value { Gives (λ x. (x.0.now, x.1.now)) result ((text w16 low end).get bytes.now) }
    ensures shorter { IfSome result (λ x. length x.1.now < length bytes.now) }
    ensures from { IfSome result (λ x. low ≤ length x.0.now) }
    ensures below { IfSome result (λ x. length x.0.now < end) }
{
    let (length, rest) = number16(bytes, low, end)?;
    let length = usize::from(length);
    if rest.len() < length {
        return None;
    }
    Some(rest.split_at(length))
}
