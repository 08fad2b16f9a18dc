//! Names of nodes, numbers and bytes, each written to a sink.
ghost use Rattle.std.specs.Prelude.{◌≡◌, ◌<◌, ◌≤◌, ◌+◌, ◌++◌, ◌∷◌, [], length, take, codes};
ghost use Rattle.std.specs.List.{flat_map};
ghost use Rattle.std.specs.Fmt.{decimal};
ghost use Rattle.mesh_base.specs.Addresses.{dotted_decimal};
ghost use Rattle.mesh_base.specs.InlineBytes.{inline_bytes};
ghost use Rattle.mesh_grammar.specs.Written.{label_number};
ghost use Rattle.mesh_text.specs.Lines.{name_of, of_one, of_two, hex, hex_byte};
ghost use Rattle.mesh_text.specs.Effects.{shown_byte, set_text};
ghost use Rattle.aodv_model.specs.Soundness.{AreBelow};
ghost use Rattle.mesh_io.specs.Cause.{HasCause};
ghost use Rattle.mesh_io.specs.Puts.{Puts};

use mesh_base::{Addr, Mesh, NodeSet, ShortText, dotted, four_digits, short, short_decimal};
use mesh_io::{PutFault, Sink};

/// Writes a text of at most 16 bytes, whose length is known at compile time.
#[inline(always)]
pub(crate) fn put_text<O: Sink, const WIDTH: usize>(
    text: &[u8; WIDTH],
    out: &mut O,
) -> Result<(), PutFault>
    requires { WIDTH ≤ 16 }
    ensures text { Puts (O.held out.old) (O.held out.new) text.now result }
    ensures cause { HasCause (O.faults out.old) (O.faults out.new) result }
{
    out.put_short(&short(text))
}

/// Writes a byte.
#[inline(always)]
pub(crate) fn put_byte<O: Sink>(b: u8, out: &mut O) -> Result<(), PutFault>
    ensures text { Puts (O.held out.old) (O.held out.new) (b ∷ []) result }
    ensures cause { HasCause (O.faults out.old) (O.faults out.new) result }
{
    put_text(&[b], out)
}

/// Writes an address.
#[inline(never)]
pub(crate) fn put_address<O: Sink>(a: Addr, out: &mut O) -> Result<(), PutFault>
    ensures text { Puts (O.held out.old) (O.held out.new) (dotted_decimal a.0) result }
    ensures cause { HasCause (O.faults out.old) (O.faults out.new) result }
{
    out.put_short(&dotted(a))
}

/// Writes a space, and an address.
pub(crate) fn put_address_word<O: Sink>(a: Addr, out: &mut O) -> Result<(), PutFault>
    ensures text { Puts (O.held out.old) (O.held out.new) (32 ∷ dotted_decimal a.0) result }
    ensures cause { HasCause (O.faults out.old) (O.faults out.new) result }
{
    put_byte(b' ', out)?;
    put_address(a, out)
}

/// Writes a node's address.
#[inline(always)]
pub(crate) fn put_name<O: Sink>(mesh: &Mesh, i: usize, out: &mut O) -> Result<(), PutFault>
    requires { i < length mesh.now }
    ensures text { Puts (O.held out.old) (O.held out.new) (name_of mesh.now i) result }
    ensures cause { HasCause (O.faults out.old) (O.faults out.new) result }
{
    out.put_short(&mesh.name(i))
}

/// Writes a number.
#[inline(never)]
pub(crate) fn put_decimal<O: Sink>(n: u64, out: &mut O) -> Result<(), PutFault>
    ensures text { Puts (O.held out.old) (O.held out.new) (decimal n) result }
    ensures cause { HasCause (O.faults out.old) (O.faults out.new) result }
{
    if n < 100_000_000 {
        return out.put_short(&short_decimal(n as u32));
    }
    put_decimal(n / 10_000, out)?;
    put_text(&four_digits((n % 10_000) as u32), out)
}

/// Writes a label, and a node's address.
#[inline(always)]
pub(crate) fn put_one<O: Sink, const WIDTH: usize>(
    label: &[u8; WIDTH],
    mesh: &Mesh,
    i: usize,
    out: &mut O,
) -> Result<(), PutFault>
    requires width { WIDTH ≤ 16 }
    requires node { i < length mesh.now }
    ensures text { Puts (O.held out.old) (O.held out.new) (of_one label.now mesh.now i) result }
    ensures cause { HasCause (O.faults out.old) (O.faults out.new) result }
{
    put_text(label, out)?;
    put_name(mesh, i, out)
}

/// Writes a label, and two nodes' addresses with a space between them.
#[inline(always)]
pub(crate) fn put_two<O: Sink, const WIDTH: usize>(
    label: &[u8; WIDTH],
    mesh: &Mesh,
    i: usize,
    j: usize,
    out: &mut O,
) -> Result<(), PutFault>
    requires width { WIDTH ≤ 16 }
    requires first { i < length mesh.now }
    requires second { j < length mesh.now }
    ensures text { Puts (O.held out.old) (O.held out.new) (of_two label.now mesh.now i j) result }
    ensures cause { HasCause (O.faults out.old) (O.faults out.new) result }
{
    put_text(label, out)?;
    put_name(mesh, i, out)?;
    put_one(b" ", mesh, j, out)
}

/// Writes a label, and a number.
#[inline(always)]
pub(crate) fn put_labelled<O: Sink, const WIDTH: usize>(
    label: &[u8; WIDTH],
    n: u64,
    out: &mut O,
) -> Result<(), PutFault>
    requires { WIDTH ≤ 16 }
    ensures text { Puts (O.held out.old) (O.held out.new) (label_number label.now n) result }
    ensures cause { HasCause (O.faults out.old) (O.faults out.new) result }
{
    put_text(label, out)?;
    put_decimal(n, out)
}

// The two hexadecimal digits of each byte.
static HEX: [[u8; 2]; 256] = [
    *b"00", *b"01", *b"02", *b"03", *b"04", *b"05", *b"06", *b"07", *b"08", *b"09", *b"0a", *b"0b",
    *b"0c", *b"0d", *b"0e", *b"0f", *b"10", *b"11", *b"12", *b"13", *b"14", *b"15", *b"16", *b"17",
    *b"18", *b"19", *b"1a", *b"1b", *b"1c", *b"1d", *b"1e", *b"1f", *b"20", *b"21", *b"22", *b"23",
    *b"24", *b"25", *b"26", *b"27", *b"28", *b"29", *b"2a", *b"2b", *b"2c", *b"2d", *b"2e", *b"2f",
    *b"30", *b"31", *b"32", *b"33", *b"34", *b"35", *b"36", *b"37", *b"38", *b"39", *b"3a", *b"3b",
    *b"3c", *b"3d", *b"3e", *b"3f", *b"40", *b"41", *b"42", *b"43", *b"44", *b"45", *b"46", *b"47",
    *b"48", *b"49", *b"4a", *b"4b", *b"4c", *b"4d", *b"4e", *b"4f", *b"50", *b"51", *b"52", *b"53",
    *b"54", *b"55", *b"56", *b"57", *b"58", *b"59", *b"5a", *b"5b", *b"5c", *b"5d", *b"5e", *b"5f",
    *b"60", *b"61", *b"62", *b"63", *b"64", *b"65", *b"66", *b"67", *b"68", *b"69", *b"6a", *b"6b",
    *b"6c", *b"6d", *b"6e", *b"6f", *b"70", *b"71", *b"72", *b"73", *b"74", *b"75", *b"76", *b"77",
    *b"78", *b"79", *b"7a", *b"7b", *b"7c", *b"7d", *b"7e", *b"7f", *b"80", *b"81", *b"82", *b"83",
    *b"84", *b"85", *b"86", *b"87", *b"88", *b"89", *b"8a", *b"8b", *b"8c", *b"8d", *b"8e", *b"8f",
    *b"90", *b"91", *b"92", *b"93", *b"94", *b"95", *b"96", *b"97", *b"98", *b"99", *b"9a", *b"9b",
    *b"9c", *b"9d", *b"9e", *b"9f", *b"a0", *b"a1", *b"a2", *b"a3", *b"a4", *b"a5", *b"a6", *b"a7",
    *b"a8", *b"a9", *b"aa", *b"ab", *b"ac", *b"ad", *b"ae", *b"af", *b"b0", *b"b1", *b"b2", *b"b3",
    *b"b4", *b"b5", *b"b6", *b"b7", *b"b8", *b"b9", *b"ba", *b"bb", *b"bc", *b"bd", *b"be", *b"bf",
    *b"c0", *b"c1", *b"c2", *b"c3", *b"c4", *b"c5", *b"c6", *b"c7", *b"c8", *b"c9", *b"ca", *b"cb",
    *b"cc", *b"cd", *b"ce", *b"cf", *b"d0", *b"d1", *b"d2", *b"d3", *b"d4", *b"d5", *b"d6", *b"d7",
    *b"d8", *b"d9", *b"da", *b"db", *b"dc", *b"dd", *b"de", *b"df", *b"e0", *b"e1", *b"e2", *b"e3",
    *b"e4", *b"e5", *b"e6", *b"e7", *b"e8", *b"e9", *b"ea", *b"eb", *b"ec", *b"ed", *b"ee", *b"ef",
    *b"f0", *b"f1", *b"f2", *b"f3", *b"f4", *b"f5", *b"f6", *b"f7", *b"f8", *b"f9", *b"fa", *b"fb",
    *b"fc", *b"fd", *b"fe", *b"ff",
];

// The two hexadecimal digits of a byte.
#[inline(always)]
fn digits(b: u8) -> [u8; 2]
    ensures { result ≡ hex_byte b }
{
    HEX[b as usize]
}

// Writes the two digits of a byte.
#[inline(always)]
fn put_digits<O: Sink>(b: u8, out: &mut O) -> Result<(), PutFault>
    ensures text { Puts (O.held out.old) (O.held out.new) (hex_byte b) result }
    ensures cause { HasCause (O.faults out.old) (O.faults out.new) result }
{
    put_text(&digits(b), out)
}

// The digits of four bytes.
#[inline(always)]
fn eight_digits(a: u8, b: u8, c: u8, d: u8) -> [u8; 8]
    ensures { result ≡ hex (a ∷ b ∷ c ∷ d ∷ []) }
{
    let [p, q] = digits(a);
    let [r, s] = digits(b);
    let [t, u] = digits(c);
    let [v, w] = digits(d);
    [p, q, r, s, t, u, v, w]
}

// Writes the digits of four bytes at once.
#[inline(always)]
fn put_four<O: Sink>(a: u8, b: u8, c: u8, d: u8, out: &mut O) -> Result<(), PutFault>
    ensures text { Puts (O.held out.old) (O.held out.new) (hex (a ∷ b ∷ c ∷ d ∷ [])) result }
    ensures cause { HasCause (O.faults out.old) (O.faults out.new) result }
{
    put_text(&eight_digits(a, b, c, d), out)
}

// Writes eight digits to the cells from `at` on.
#[inline(always)]
fn join(cells: &mut [u8; 16], at: usize, digits: &[u8; 8])
    requires { at ≤ 8 }
    ensures { take (at + 8) cells.new ≡ take at cells.old ++ digits.now }
{
    cells[at..at + 8].copy_from_slice(digits);
}

// The digits of eight bytes: those of the first four, and those of the others.
#[inline(always)]
fn joined(front: &[u8; 8], back: &[u8; 8]) -> ShortText
    ensures { inline_bytes result ≡ front.now ++ back.now }
{
    let mut cells = [0; 16];
    join(&mut cells, 0, front);
    join(&mut cells, 8, back);
    ShortText::front_of(cells, 16)
}

// Writes the digits of eight bytes at once.
#[inline(always)]
fn put_eight<O: Sink>(front: &[u8; 8], back: &[u8; 8], out: &mut O) -> Result<(), PutFault>
    ensures text { Puts (O.held out.old) (O.held out.new) (front.now ++ back.now) result }
    ensures cause { HasCause (O.faults out.old) (O.faults out.new) result }
{
    out.put_short(&joined(front, back))
}

// Writes the digits of these bytes, one byte after another.
fn put_hex_bytes<O: Sink>(bytes: &[u8], out: &mut O) -> Result<(), PutFault>
    ensures text { Puts (O.held out.old) (O.held out.new) (hex bytes.now) result }
    ensures cause { HasCause (O.faults out.old) (O.faults out.new) result }
{
    for b in bytes {
        put_digits(*b, out)?;
    }
    Ok(())
}

// Writes the digits of less than eight bytes: four at once, and then one after another.
fn put_hex_rest<O: Sink>(bytes: &[u8], out: &mut O) -> Result<(), PutFault>
    ensures text { Puts (O.held out.old) (O.held out.new) (hex bytes.now) result }
    ensures cause { HasCause (O.faults out.old) (O.faults out.new) result }
{
    let [a, b, c, d, more @ ..] = bytes else {
        return put_hex_bytes(bytes, out);
    };
    put_four(*a, *b, *c, *d, out)?;
    put_hex_bytes(more, out)
}

/// Writes bytes in hexadecimal.
pub(crate) fn put_hex<O: Sink>(bytes: &[u8], out: &mut O) -> Result<(), PutFault>
    ensures text { Puts (O.held out.old) (O.held out.new) (hex bytes.now) result }
    ensures cause { HasCause (O.faults out.old) (O.faults out.new) result }
{
    let mut rest = bytes;
    while let [a, b, c, d, e, f, g, h, more @ ..] = rest {
        put_eight(
            &eight_digits(*a, *b, *c, *d),
            &eight_digits(*e, *f, *g, *h),
            out,
        )?;
        rest = more;
    }
    put_hex_rest(rest, out)
}

/// Writes a space, and bytes in hexadecimal.
#[inline(always)]
pub(crate) fn put_hex_word<O: Sink>(bytes: &[u8], out: &mut O) -> Result<(), PutFault>
    ensures text { Puts (O.held out.old) (O.held out.new) (32 ∷ hex bytes.now) result }
    ensures cause { HasCause (O.faults out.old) (O.faults out.new) result }
{
    put_byte(b' ', out)?;
    put_hex(bytes, out)
}

// Writes the escape of a byte: a backslash, an x, and the two hexadecimal digits.
fn put_escaped<O: Sink>(b: u8, out: &mut O) -> Result<(), PutFault>
    ensures text { Puts (O.held out.old) (O.held out.new) (codes "\\x" ++ hex_byte b) result }
    ensures cause { HasCause (O.faults out.old) (O.faults out.new) result }
{
    put_text(b"\\x", out)?;
    put_digits(b, out)
}

// Writes a byte of a datum in the form in which it is shown.
fn put_shown_byte<O: Sink>(b: u8, out: &mut O) -> Result<(), PutFault>
    ensures text { Puts (O.held out.old) (O.held out.new) (shown_byte b) result }
    ensures cause { HasCause (O.faults out.old) (O.faults out.new) result }
{
    if 32 <= b && b <= 126 && b != b'\\' {
        put_byte(b, out)
    } else {
        put_escaped(b, out)
    }
}

// Writes a datum in the form in which it is shown.
fn put_shown<O: Sink>(body: &[u8], out: &mut O) -> Result<(), PutFault>
    ensures text { Puts (O.held out.old) (O.held out.new) (flat_map shown_byte body.now) result }
    ensures cause { HasCause (O.faults out.old) (O.faults out.new) result }
{
    for b in body {
        put_shown_byte(*b, out)?;
    }
    Ok(())
}

/// Writes a space, and a datum in the form in which it is shown.
pub(crate) fn put_shown_word<O: Sink>(body: &[u8], out: &mut O) -> Result<(), PutFault>
    ensures text { Puts (O.held out.old) (O.held out.new)
        (32 ∷ flat_map shown_byte body.now) result }
    ensures cause { HasCause (O.faults out.old) (O.faults out.new) result }
{
    put_byte(b' ', out)?;
    put_shown(body, out)
}

/// Writes the members of a set, in ascending order of address, joined by commas, or a hyphen if
/// there are none.
pub(crate) fn put_set<O: Sink>(mesh: &Mesh, set: &NodeSet, out: &mut O) -> Result<(), PutFault>
    requires { AreBelow (length mesh.now) set.now }
    ensures text { Puts (O.held out.old) (O.held out.new) (set_text mesh.now set.now) result }
    ensures cause { HasCause (O.faults out.old) (O.faults out.new) result }
{
    // There are at most 200 nodes.
    let _nodes = mesh.len();
    let Some(first) = set.next_from(0) else {
        return put_byte(b'-', out);
    };
    put_name(mesh, first, out)?;
    let mut start = first + 1;
    while let Some(node) = set.next_from(start) {
        put_one(b",", mesh, node, out)?;
        start = node + 1;
    }
    Ok(())
}

/// Writes a space, and the members of a set.
pub(crate) fn put_set_word<O: Sink>(mesh: &Mesh, set: &NodeSet, out: &mut O) -> Result<(), PutFault>
    requires { AreBelow (length mesh.now) set.now }
    ensures text { Puts (O.held out.old) (O.held out.new) (32 ∷ set_text mesh.now set.now) result }
    ensures cause { HasCause (O.faults out.old) (O.faults out.new) result }
{
    put_byte(b' ', out)?;
    put_set(mesh, set, out)
}
