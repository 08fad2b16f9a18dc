//! A packet's buffer, parts of texts, and decimal numbers.
ghost use Rattle.std.specs.Prelude.{◌≡◌, ◌↔◌, ◌+◌, ◌/◌, ◌%◌, ◌<◌, ◌≤◌, [], ◌∷◌, ◌++◌, length, take, position, ◌==◌, IfNone, IfSome, IsTrue};
ghost use Rattle.std.specs.Fmt.{decimal};
ghost use Rattle.mesh_base.specs.InlineBytes.{inline_bytes};
ghost use Rattle.mesh_base.specs.Parts.{parts, rest_parts};
ghost use Rattle.mesh_base.specs.Numbers as numbers;

use crate::few::{InlineBytes, ShortText};
use crate::limits::{LINE_CAPACITY, LONGEST_PACKET, NUMBER_WIDTH};
use crate::line_buf::{LineBuf, push_array};
use arrayvec::ArrayVec;

/// The bytes of one packet.
pub type Packet = ArrayVec<u8, LONGEST_PACKET>;

fn position_of(bytes: &[u8], sep: u8) -> Option<usize>
    ensures value { result ≡ position (λ b. b == sep) bytes.now }
    ensures within { IfSome result (λ i. i < length bytes.now) }
{
    bytes.iter().position(|b| *b == sep)
}

/// The bytes before the first `sep`, and those after it. If there is no `sep`, all bytes, and None.
pub fn cut(bytes: &[u8], sep: u8) -> (&[u8], Option<&[u8]>)
    ensures whole { IfNone result.1 (result.0.now ≡ bytes.now) }
    ensures parts { parts sep bytes.now ≡ result.0.now ∷ rest_parts sep result.1 }
    ensures length { IfSome result.1
        (λ rest. length result.0.now + 1 + length rest.now ≡ length bytes.now) }
{
    match position_of(bytes, sep) {
        None => (bytes, None),
        Some(at) => (&bytes[..at], Some(&bytes[at + 1..])),
    }
}

/// Whether four bytes equal these four. They are compared as one number.
#[inline(always)]
pub fn are_equal(bytes: &[u8; 4], these: &[u8; 4]) -> bool
    ensures { IsTrue result ↔ (bytes.now ≡ these.now) }
{
    u32::from_le_bytes(*bytes) == u32::from_le_bytes(*these)
}

fn is_canonical(bytes: &[u8]) -> bool
    ensures { result ≡ numbers.is_canonical bytes.now }
{
    match bytes {
        [] => false,
        [_] => true,
        [first, ..] => *first != b'0',
    }
}

fn digits_up_to(ds: &[u8], most: u64) -> Option<u64>
    ensures value { result ≡ numbers.digits_up_to most ds.now }
    ensures within { IfSome result (λ n. n ≤ most) }
{
    let mut n: u64 = 0;
    for b in ds {
        if !b.is_ascii_digit() {
            return None;
        }
        n = n.checked_mul(10)?.checked_add(u64::from(*b - b'0'))?;
    }
    if n <= most { Some(n) } else { None }
}

/// The number that these bytes denote in decimal digits without a leading zero, if it is at most
/// `most`.
#[tactic(auto, unfolding(crate::specs::Numbers::number_up_to))]
pub fn number_up_to(bytes: &[u8], most: u64) -> Option<u64>
    ensures value { result ≡ numbers.number_up_to most bytes.now }
    ensures within { IfSome result (λ n. n ≤ most) }
{
    if is_canonical(bytes) {
        digits_up_to(bytes, most)
    } else {
        None
    }
}

/// A text of a length that is known at compile time, as a short one.
#[inline(always)]
pub fn short<const WIDTH: usize>(text: &[u8; WIDTH]) -> ShortText
    requires { WIDTH ≤ 16 }
    ensures { inline_bytes result ≡ text.now }
{
    let mut bytes = [0; 16];
    bytes[..WIDTH].copy_from_slice(text);
    InlineBytes::front_of(bytes, WIDTH)
}

// The two digits of each number below 100.
static PAIRS: [[u8; 2]; 100] = [
    *b"00", *b"01", *b"02", *b"03", *b"04", *b"05", *b"06", *b"07", *b"08", *b"09", *b"10", *b"11",
    *b"12", *b"13", *b"14", *b"15", *b"16", *b"17", *b"18", *b"19", *b"20", *b"21", *b"22", *b"23",
    *b"24", *b"25", *b"26", *b"27", *b"28", *b"29", *b"30", *b"31", *b"32", *b"33", *b"34", *b"35",
    *b"36", *b"37", *b"38", *b"39", *b"40", *b"41", *b"42", *b"43", *b"44", *b"45", *b"46", *b"47",
    *b"48", *b"49", *b"50", *b"51", *b"52", *b"53", *b"54", *b"55", *b"56", *b"57", *b"58", *b"59",
    *b"60", *b"61", *b"62", *b"63", *b"64", *b"65", *b"66", *b"67", *b"68", *b"69", *b"70", *b"71",
    *b"72", *b"73", *b"74", *b"75", *b"76", *b"77", *b"78", *b"79", *b"80", *b"81", *b"82", *b"83",
    *b"84", *b"85", *b"86", *b"87", *b"88", *b"89", *b"90", *b"91", *b"92", *b"93", *b"94", *b"95",
    *b"96", *b"97", *b"98", *b"99",
];

// The two digits of a number below 100.
#[inline(always)]
fn pair(n: u32) -> [u8; 2]
    requires { n < 100 }
    ensures { result ≡ (48 + n / 10) ∷ (48 + n % 10) ∷ [] }
{
    PAIRS[n as usize]
}

// A number below 10,000 in decimal digits.
#[inline(always)]
fn up_to_four(n: u32) -> InlineBytes<4>
    requires { n < 10000 }
    ensures { inline_bytes result ≡ decimal n }
{
    let [a, b] = pair(n / 100);
    let [c, d] = pair(n % 100);
    if n < 10 {
        InlineBytes::front_of([d, 0, 0, 0], 1)
    } else if n < 100 {
        InlineBytes::front_of([c, d, 0, 0], 2)
    } else if n < 1000 {
        InlineBytes::front_of([b, c, d, 0], 3)
    } else {
        InlineBytes::front_of([a, b, c, d], 4)
    }
}

/// A number below 10,000 in four decimal digits, with leading zeros.
#[inline(always)]
pub fn four_digits(n: u32) -> [u8; 4]
    requires { n < 10000 }
    ensures { result ≡ (48 + n / 100 / 10) ∷ (48 + n / 100 % 10) ∷ (48 + n % 100 / 10)
        ∷ (48 + n % 100 % 10) ∷ [] }
{
    let [a, b] = pair(n / 100);
    let [c, d] = pair(n % 100);
    [a, b, c, d]
}

// Writes four digits to the cells from `at` on.
#[inline(always)]
fn join(cells: &mut [u8; 16], at: usize, digits: [u8; 4])
    requires { at ≤ 12 }
    ensures { take (at + 4) cells.new ≡ take at cells.old ++ digits }
{
    cells[at..at + 4].copy_from_slice(&digits);
}

/// A number below 100,000,000 in decimal digits.
#[inline(always)]
pub fn short_decimal(n: u32) -> ShortText
    requires { n < 100000000 }
    ensures { inline_bytes result ≡ decimal n }
{
    let mut cells = [0; 16];
    if n < 10_000 {
        let all = up_to_four(n);
        join(&mut cells, 0, *all.whole());
        return InlineBytes::front_of(cells, all.width());
    }
    let high = up_to_four(n / 10_000);
    join(&mut cells, 0, *high.whole());
    join(&mut cells, high.width(), four_digits(n % 10_000));
    InlineBytes::front_of(cells, high.width() + 4)
}

// Appends the two digits of a number below 100.
#[inline]
fn push_pair(out: &mut LineBuf, n: u32)
    requires low { n < 100 }
    requires room { length out.old.items + 2 ≤ LINE_CAPACITY }
    ensures text { out.new.items ≡ out.old.items ++ (48 + n / 10) ∷ (48 + n % 10) ∷ [] }
    ensures length { length out.new.items ≡ length out.old.items + 2 }
{
    push_array(out, &PAIRS[n as usize]);
}

// Appends a number of one or two digits.
#[inline]
#[tactic(auto, using(std::proofs::lemmas::Fmt::decimal_digit, crate::proofs::NumberLaws::two_digits))]
fn push_low(out: &mut LineBuf, n: u32)
    requires low { n < 100 }
    requires room { length out.old.items + length (decimal n) ≤ LINE_CAPACITY }
    ensures text { out.new.items ≡ out.old.items ++ decimal n }
    ensures length { length out.new.items ≡ length out.old.items + length (decimal n) }
{
    if n < 10 {
        out.push(b'0' + n as u8);
    } else {
        push_pair(out, n);
    }
}

// Appends a number of at most four digits.
#[inline]
#[tactic(auto, using(crate::proofs::NumberLaws::appended_hundreds, crate::proofs::NumberLaws::two_longer))]
pub(crate) fn push_short(out: &mut LineBuf, n: u32)
    requires short { n < 10000 }
    requires room { length out.old.items + length (decimal n) ≤ LINE_CAPACITY }
    ensures text { out.new.items ≡ out.old.items ++ decimal n }
    ensures length { length out.new.items ≡ length out.old.items + length (decimal n) }
{
    if n < 100 {
        push_low(out, n);
    } else {
        push_low(out, n / 100);
        push_pair(out, n % 100);
    }
}

// Appends a number of at most four digits, with leading zeros up to four.
#[inline]
fn push_four(out: &mut LineBuf, n: u32)
    requires short { n < 10000 }
    requires room { length out.old.items + 4 ≤ LINE_CAPACITY }
    ensures text { out.new.items ≡ (out.old.items ++ (48 + n / 100 / 10) ∷ (48 + n / 100 % 10) ∷ [])
        ++ (48 + n % 100 / 10) ∷ (48 + n % 100 % 10) ∷ [] }
    ensures length { length out.new.items ≡ length out.old.items + 4 }
{
    push_pair(out, n / 100);
    push_pair(out, n % 100);
}

/// Appends a number in decimal digits.
#[tactic(auto, using(crate::proofs::NumberLaws::appended_four, crate::proofs::NumberLaws::four_longer))]
pub fn push_decimal(out: &mut LineBuf, n: u64)
    requires { length out.old.items + length (decimal n) ≤ LINE_CAPACITY }
    ensures text { out.new.items ≡ out.old.items ++ decimal n }
    ensures length { length out.new.items ≡ length out.old.items + length (decimal n) }
{
    if n < 10_000 {
        push_short(out, n as u32);
    } else if n < 100_000_000 {
        push_short(out, (n / 10_000) as u32);
        push_four(out, (n % 10_000) as u32);
    } else {
        push_decimal(out, n / 10_000);
        push_four(out, (n % 10_000) as u32);
    }
}

/// Appends a number in decimal digits: at most 20 bytes.
#[tactic(auto, using(crate::proofs::NumberLaws::at_most_twenty))]
pub fn push_number(out: &mut LineBuf, n: u64)
    requires { length out.old.items + NUMBER_WIDTH ≤ LINE_CAPACITY }
    ensures text { out.new.items ≡ out.old.items ++ decimal n }
    ensures length { length out.new.items ≤ length out.old.items + NUMBER_WIDTH }
{
    push_decimal(out, n);
}
