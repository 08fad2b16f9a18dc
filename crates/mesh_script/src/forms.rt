//! The arguments of a command, by their form.
ghost use Rattle.std.specs.Prelude.{◌≡◌, ◌<◌, ◌+◌, ◌∷◌, length, IfSome};
ghost use Rattle.mesh_base.specs.Bounds.{slice_end};
ghost use Rattle.mesh_base.specs.Parts.{parts, rest_parts};
ghost use Rattle.mesh_grammar.specs.Forms as forms;
ghost use Rattle.mesh_script.specs.Arguments.{all_spanned_in};

use crate::words::{SpannedAddr, address, next_at, number, text};
use mesh_base::{Mesh, cut};
use mesh_grammar::{Form, LineFault};

/// The arguments of a command, with an `A` for each address: an address with its span when a line
/// is read, a node's index once the line is allowed, and the address itself when a line is written.
#[derive(Drop)]
pub enum Arguments<'a, A> {
    NoArgument,
    OneAddress(A),
    TwoAddresses(A, A),
    OneNumber(u64),
    /// An address, and a first sequence number of at least 1.
    NumberedAddress(A, u32),
    /// Two addresses, and a text of 1 to 512 bytes.
    AddressesAndText(A, A, &'a [u8]),
    AddressAndNumber(A, u64),
    /// An address, and a text of 1 to 512 bytes.
    AddressAndText(A, &'a [u8]),
}

/// What a line says after its command.
pub type Read<'a> = Result<Arguments<'a, SpannedAddr>, LineFault>;

// Each form has a function of its own, so that no line pays for the stack frame of another form.
// The arguments begin at `at`; they are None if there is no space after the command.

#[tactic(auto, using(crate::proofs::Cuts::no_argument_some))]
fn no_argument(arguments: Option<&[u8]>) -> Read<'static>
    ensures { all_spanned_in result
        ≡ forms.no_argument (rest_parts 32 arguments.entry) forms.NoArgument }
{
    match arguments {
        None => Ok(Arguments::NoArgument),
        Some(_words) => Err(LineFault::Count),
    }
}

// An address has no space, so the only argument is searched for a second word only if it isn't an
// address.
#[tactic(auto, using(crate::proofs::Cuts::one_address_more))]
fn one_address(mesh: &Mesh, at: usize, arguments: Option<&[u8]>) -> Read<'static>
    requires { IfSome arguments (λ words. at + length words.now < slice_end) }
    ensures { all_spanned_in result
        ≡ forms.one_address at (rest_parts 32 arguments.entry) forms.OneAddress }
{
    let Some(words) = arguments else {
        return Err(LineFault::Count);
    };
    let fault = match address(mesh, at, words) {
        Ok(spanned) => return Ok(Arguments::OneAddress(spanned)),
        Err(fault) => fault,
    };
    let (_word, more) = cut(words, b' ');
    if let Some(_more) = more {
        return Err(LineFault::Count);
    }
    Err(fault)
}

#[tactic(auto, using(crate::proofs::Cuts::two_addresses_more))]
fn two_addresses(mesh: &Mesh, at: usize, arguments: Option<&[u8]>) -> Read<'static>
    requires { IfSome arguments (λ words. at + length words.now < slice_end) }
    ensures { all_spanned_in result
        ≡ forms.two_addresses at (rest_parts 32 arguments.entry) forms.TwoAddresses }
{
    let Some(words) = arguments else {
        return Err(LineFault::Count);
    };
    let (first, words) = cut(words, b' ');
    let Some(words) = words else {
        return Err(LineFault::Count);
    };
    let (second, more) = cut(words, b' ');
    if let Some(_more) = more {
        return Err(LineFault::Count);
    }
    let second_at = next_at(at, first);
    let a = address(mesh, at, first)?;
    let b = address(mesh, second_at, second)?;
    Ok(Arguments::TwoAddresses(a, b))
}

// As in `one_address`, the argument is searched for a second word only if it isn't a number.
#[tactic(auto, using(crate::proofs::Cuts::one_number_more))]
fn one_number(most: u64, at: usize, arguments: Option<&[u8]>) -> Read<'static>
    requires { IfSome arguments (λ words. at + length words.now < slice_end) }
    ensures { all_spanned_in result
        ≡ forms.one_number most at (rest_parts 32 arguments.entry) forms.OneNumber }
{
    let Some(words) = arguments else {
        return Err(LineFault::Count);
    };
    let fault = match number(most, at, words) {
        Ok(n) => return Ok(Arguments::OneNumber(n)),
        Err(fault) => fault,
    };
    let (_word, more) = cut(words, b' ');
    if let Some(_more) = more {
        return Err(LineFault::Count);
    }
    Err(fault)
}

// `ADDR sn NUM`: `word` is ADDR, and `others` is what follows it and its space.
#[tactic(auto, using(crate::proofs::Cuts::numbered_address_more), unfolding(mesh_grammar::specs::Forms::numbered_address))]
fn address_sn(mesh: &Mesh, at: usize, word: &[u8], others: &[u8]) -> Read<'static>
    requires { at + length word.now + 1 + length others.now < slice_end }
    ensures { all_spanned_in result
        ≡ forms.numbered_address at (word.now ∷ parts 32 others.now) forms.NumberedAddress }
{
    let (sn, others) = cut(others, b' ');
    let Some(others) = others else {
        return Err(LineFault::Count);
    };
    let (first, more) = cut(others, b' ');
    if let Some(_more) = more {
        return Err(LineFault::Count);
    }
    if sn != b"sn".as_slice() {
        return Err(LineFault::Count);
    }
    let sn_at = next_at(at, word);
    let first_at = next_at(sn_at, sn);
    let a = address(mesh, at, word)?;
    let first = number(u64::from(u32::MAX), first_at, first)?;
    Ok(Arguments::NumberedAddress(a, first as u32))
}

#[tactic(auto, unfolding(mesh_grammar::specs::Forms::numbered_address))]
fn numbered_address(mesh: &Mesh, at: usize, arguments: Option<&[u8]>) -> Read<'static>
    requires { IfSome arguments (λ words. at + length words.now < slice_end) }
    ensures { all_spanned_in result
        ≡ forms.numbered_address at (rest_parts 32 arguments.entry) forms.NumberedAddress }
{
    let Some(words) = arguments else {
        return Err(LineFault::Count);
    };
    let (word, others) = cut(words, b' ');
    let Some(others) = others else {
        let a = address(mesh, at, word)?;
        return Ok(Arguments::NumberedAddress(a, 1));
    };
    address_sn(mesh, at, word, others)
}

// The text is all that follows the second address and its space.
#[tactic(auto, using(crate::proofs::Cuts::addresses_and_text_of), unfolding(mesh_grammar::specs::Forms::addresses_and_text))]
fn addresses_and_text<'a>(mesh: &Mesh, at: usize, arguments: Option<&'a [u8]>) -> Read<'a>
    requires { IfSome arguments (λ words. at + length words.now < slice_end) }
    ensures { all_spanned_in result
        ≡ forms.addresses_and_text at (rest_parts 32 arguments.entry) forms.AddressesAndText }
{
    let Some(words) = arguments else {
        return Err(LineFault::Count);
    };
    let (first, words) = cut(words, b' ');
    let Some(words) = words else {
        return Err(LineFault::Count);
    };
    let (second, body) = cut(words, b' ');
    let Some(body) = body else {
        return Err(LineFault::Count);
    };
    let second_at = next_at(at, first);
    let body_at = next_at(second_at, second);
    let a = address(mesh, at, first)?;
    let b = address(mesh, second_at, second)?;
    let text = text(body_at, body)?;
    Ok(Arguments::AddressesAndText(a, b, text))
}

#[tactic(auto, using(crate::proofs::Cuts::address_and_number_more))]
fn address_and_number(mesh: &Mesh, most: u64, at: usize, arguments: Option<&[u8]>) -> Read<'static>
    requires { IfSome arguments (λ words. at + length words.now < slice_end) }
    ensures { all_spanned_in result
        ≡ forms.address_and_number most at (rest_parts 32 arguments.entry) forms.AddressAndNumber }
{
    let Some(words) = arguments else {
        return Err(LineFault::Count);
    };
    let (word, others) = cut(words, b' ');
    let Some(others) = others else {
        return Err(LineFault::Count);
    };
    let (second, more) = cut(others, b' ');
    if let Some(_more) = more {
        return Err(LineFault::Count);
    }
    let a = address(mesh, at, word)?;
    let n = number(most, next_at(at, word), second)?;
    Ok(Arguments::AddressAndNumber(a, n))
}

// The text is all that follows the address and its space.
#[tactic(auto, using(crate::proofs::Cuts::address_and_text_of), unfolding(mesh_grammar::specs::Forms::address_and_text))]
fn address_and_text<'a>(mesh: &Mesh, at: usize, arguments: Option<&'a [u8]>) -> Read<'a>
    requires { IfSome arguments (λ words. at + length words.now < slice_end) }
    ensures { all_spanned_in result
        ≡ forms.address_and_text at (rest_parts 32 arguments.entry) forms.AddressAndText }
{
    let Some(words) = arguments else {
        return Err(LineFault::Count);
    };
    let (word, body) = cut(words, b' ');
    let Some(body) = body else {
        return Err(LineFault::Count);
    };
    let a = address(mesh, at, word)?;
    let text = text(next_at(at, word), body)?;
    Ok(Arguments::AddressAndText(a, text))
}

/// The arguments of this form, or the first fault. `arguments` are the bytes after the command and
/// its space, which begin at `at`, or None if there is no space. The mesh affects only how long
/// this takes: addresses that begin as most addresses of the mesh do are read faster.
pub fn arguments_of<'a>(mesh: &Mesh, form: Form, at: usize, arguments: Option<&'a [u8]>) -> Read<'a>
    requires { IfSome arguments (λ words. at + length words.now < slice_end) }
    ensures { all_spanned_in result ≡ forms.arguments_of form at (rest_parts 32 arguments.entry) }
{
    match form {
        Form::Bare => no_argument(arguments),
        Form::Address => one_address(mesh, at, arguments),
        Form::Addresses => two_addresses(mesh, at, arguments),
        Form::Number { most } => one_number(most, at, arguments),
        Form::Numbered => numbered_address(mesh, at, arguments),
        Form::Text => addresses_and_text(mesh, at, arguments),
        Form::AddressNumber { most } => address_and_number(mesh, most, at, arguments),
        Form::AddressText => address_and_text(mesh, at, arguments),
    }
}
