//! The text in which a line is written back: each node by its address, and a new node with its
//! number.
ghost use Rattle.std.specs.Prelude.{◌≡◌, ◌<◌, ◌≤◌, ◌+◌, ◌*◌, ◌++◌, ◌∷◌, Bool, length, Ok};
ghost use Rattle.std.specs.Fmt.{decimal};
ghost use Rattle.mesh_base.specs.Addresses.{dotted_decimal};
ghost use Rattle.mesh_base.specs.Meshes.{addr_at};
ghost use Rattle.mesh_model.specs.InMesh.{IsEvent};
ghost use Rattle.mesh_meaning.specs.Events.{event_of};
ghost use Rattle.mesh_grammar.specs.Forms as forms;
ghost use Rattle.mesh_grammar.specs.Written.{command_text};
ghost use Rattle.mesh_text.specs.Lines as lines;
ghost use Rattle.mesh_text.specs.Ranges.{IsInTime};
ghost use Rattle.mesh_text.specs.Schedule.{line_of};
ghost use Rattle.mesh_script.specs.Arguments.{addresses_of, width_of};
ghost use Rattle.mesh_script.specs.Seen.{accepted_of, IsPrintable};

use crate::forms::Arguments;
use crate::line::Line;
use mesh_base::{
    ADDRESS_WIDTH, Addr, Event, LINE_CAPACITY, LONGEST_DATUM, LineBuf, Mesh, NUMBER_WIDTH,
    push_array, push_number, push_text, write_dotted,
};

/// The most bytes of an address as an argument, with the space before it.
pub const ADDRESS_ARGUMENT: usize = 1 + ADDRESS_WIDTH;

/// The most bytes of a number as an argument, with the space before it.
pub const NUMBER_ARGUMENT: usize = 1 + NUMBER_WIDTH;

/// The most bytes of a line that is written back: a word of four letters, two addresses, and a
/// text.
pub const LONGEST_WRITTEN: usize = 4 + 2 * ADDRESS_ARGUMENT + 1 + LONGEST_DATUM;

// These append a space and an argument.

fn push_address(out: &mut LineBuf, a: Addr)
    requires room { length out.old.items + ADDRESS_ARGUMENT ≤ LINE_CAPACITY }
    ensures text { out.new.items ≡ out.old.items ++ 32 ∷ dotted_decimal a.0 }
    ensures length { length out.new.items ≤ length out.old.items + ADDRESS_ARGUMENT }
{
    out.push(b' ');
    write_dotted(a, out);
}

fn push_argument(out: &mut LineBuf, n: u64)
    requires room { length out.old.items + NUMBER_ARGUMENT ≤ LINE_CAPACITY }
    ensures text { out.new.items ≡ out.old.items ++ 32 ∷ decimal n }
    ensures length { length out.new.items ≤ length out.old.items + NUMBER_ARGUMENT }
{
    out.push(b' ');
    push_number(out, n);
}

/// Appends a word and its arguments.
#[inline(always)]
#[tactic(auto, using(std::proofs::lemmas::List::append_assoc), unfolding(mesh_grammar::specs::Written::command_text))]
pub fn push_written(out: &mut LineBuf, word: &[u8], arguments: &Arguments<'_, Addr>)
    requires { length out.old.items + length word.now + width_of (addresses_of arguments.now)
        ≤ LINE_CAPACITY }
    ensures text { out.new.items
        ≡ out.old.items ++ command_text word.now (addresses_of arguments.now) }
    ensures length { length out.new.items
        ≤ length out.old.items + length word.now + width_of (addresses_of arguments.now) }
{
    push_text(out, word);
    match arguments {
        Arguments::NoArgument => {}
        Arguments::OneAddress(a) => push_address(out, *a),
        Arguments::TwoAddresses(a, b) => {
            push_address(out, *a);
            push_address(out, *b);
        }
        Arguments::OneNumber(n) => push_argument(out, *n),
        Arguments::NumberedAddress(a, first) => {
            push_address(out, *a);
            push_text(out, b" sn");
            push_argument(out, u64::from(*first));
        }
        Arguments::AddressesAndText(a, b, text) => {
            push_address(out, *a);
            push_address(out, *b);
            out.push(b' ');
            push_text(out, text);
        }
        Arguments::AddressAndNumber(a, n) => {
            push_address(out, *a);
            push_argument(out, *n);
        }
        Arguments::AddressAndText(a, text) => {
            push_address(out, *a);
            out.push(b' ');
            push_text(out, text);
        }
    }
}

// Appends a word, and after a space the address of node i.
#[inline(always)]
#[tactic(auto, using(std::proofs::lemmas::List::append_assoc), unfolding(mesh_grammar::specs::Written::command_text))]
fn push_one<const N: usize>(out: &mut LineBuf, word: &[u8; N], mesh: &Mesh, i: usize)
    requires node { i < length mesh.now }
    requires room { length out.old.items + length word.now + ADDRESS_ARGUMENT ≤ LINE_CAPACITY }
    ensures text { out.new.items
        ≡ out.old.items ++ command_text word.now (forms.OneAddress (addr_at mesh.now i)) }
    ensures length { length out.new.items
        ≤ length out.old.items + length word.now + ADDRESS_ARGUMENT }
{
    push_array(out, word);
    out.push(b' ');
    mesh.push_name(i, out);
}

// Appends a word, and the addresses of nodes i and j, each after a space.
#[inline(always)]
#[tactic(auto, using(std::proofs::lemmas::List::append_assoc), unfolding(mesh_grammar::specs::Written::command_text))]
fn push_two<const N: usize>(out: &mut LineBuf, word: &[u8; N], mesh: &Mesh, i: usize, j: usize)
    requires first { i < length mesh.now }
    requires second { j < length mesh.now }
    requires room { length out.old.items + length word.now + 2 * ADDRESS_ARGUMENT ≤ LINE_CAPACITY }
    ensures text { out.new.items ≡ out.old.items
        ++ command_text word.now (forms.TwoAddresses (addr_at mesh.now i) (addr_at mesh.now j)) }
    ensures length { length out.new.items
        ≤ length out.old.items + length word.now + 2 * ADDRESS_ARGUMENT }
{
    push_one(out, word, mesh, i);
    out.push(b' ');
    mesh.push_name(j, out);
}

// Appends a word, and after a space a number.
#[inline(always)]
#[tactic(auto, using(std::proofs::lemmas::List::append_assoc), unfolding(mesh_grammar::specs::Written::command_text))]
fn push_numbered<const N: usize>(out: &mut LineBuf, word: &[u8; N], n: u64)
    requires room { length out.old.items + length word.now + NUMBER_ARGUMENT ≤ LINE_CAPACITY }
    ensures text { out.new.items ≡ out.old.items ++ command_text word.now (forms.OneNumber n) }
    ensures length { length out.new.items
        ≤ length out.old.items + length word.now + NUMBER_ARGUMENT }
{
    push_array(out, word);
    push_argument(out, n);
}

/// Appends an event as a line of a schedule, without LF.
#[tactic(auto, using(std::proofs::lemmas::List::append_assoc), unfolding(mesh_text::specs::Lines::event_words, mesh_grammar::specs::Written::command_text))]
#[inline(always)]
pub fn push_event(out: &mut LineBuf, mesh: &Mesh, event: &Event<'_>)
    requires event { IsEvent (length mesh.now) (event_of event.now) }
    requires room { length out.old.items + LONGEST_WRITTEN ≤ LINE_CAPACITY }
    ensures text { out.new.items
        ≡ out.old.items ++ lines.event_words mesh.now (event_of event.now) }
    ensures length { length out.new.items ≤ length out.old.items + LONGEST_WRITTEN }
{
    match *event {
        Event::Give { node, dest, body } => {
            push_two(out, b"data", mesh, node, dest);
            out.push(b' ');
            push_text(out, body);
        }
        Event::Turn { node } => push_one(out, b"turn", mesh, node),
        Event::Send { node, dest } => push_two(out, b"send", mesh, node, dest),
        Event::Ask { node, dest } => push_two(out, b"ask", mesh, node, dest),
        Event::Link { a, b } => push_two(out, b"link", mesh, a, b),
        Event::Cut { a, b } => push_two(out, b"cut", mesh, a, b),
        Event::Deliver { id } => push_numbered(out, b"deliver", id),
        Event::Double { id } => push_numbered(out, b"copy", id),
        Event::Lose { id } => push_numbered(out, b"lose", id),
    }
}

/// Appends a line in canonical form, without LF. For a blank line it appends nothing.
#[tactic(auto, using(crate::proofs::Allowed::append_none), unfolding(mesh_text::specs::Lines::words_of, mesh_text::specs::Lines::event_words, mesh_grammar::specs::Written::command_text))]
#[inline(always)]
pub fn push_line(out: &mut LineBuf, mesh: &Mesh, line: &Line<'_>)
    requires printable { IsPrintable mesh.now line.now }
    requires room { length out.old.items + LONGEST_WRITTEN ≤ LINE_CAPACITY }
    ensures text { out.new.items
        ≡ out.old.items ++ lines.words_of mesh.now (accepted_of line.now) }
    ensures length { length out.new.items ≤ length out.old.items + LONGEST_WRITTEN }
{
    match *line {
        Line::Blank => {}
        Line::Node { addr, first } => {
            push_written(out, b"node", &Arguments::NumberedAddress(addr, first));
        }
        Line::Step(event) => push_event(out, mesh, &event),
        Line::Auto { count } => {
            push_numbered(out, b"auto", u64::from(count));
        }
        Line::Show { node } => push_one(out, b"show", mesh, node),
        Line::Route { node, dest } => push_two(out, b"route", mesh, node, dest),
        Line::Flight => push_text(out, b"flight"),
    }
}

/// Replaces what `out` held by the line in canonical form, without LF. A blank line leaves `out`
/// empty.
#[tactic(auto, using(crate::proofs::Allowed::reread))]
pub fn print_line(line: &Line<'_>, mesh: &Mesh, out: &mut LineBuf)
    requires { IsPrintable mesh.now line.now }
    ensures text { out.new.items ≡ lines.words_of mesh.now (accepted_of line.now) }
    ensures short { length out.new.items ≤ LONGEST_WRITTEN }
    ensures reread { (started : Bool) → IsInTime started (accepted_of line.now)
        → line_of mesh.now started out.new.items ≡ Ok (accepted_of line.now) }
{
    // The mesh has distinct addresses, each of 32 bits.
    let _size = mesh.len();
    out.clear();
    push_line(out, mesh, line);
}
