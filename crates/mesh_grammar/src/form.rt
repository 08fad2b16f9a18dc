//! What may come after a command.

/// The form of a command's arguments.
#[derive(Clone, Copy, PartialEq, Eq)]
pub enum Form {
    /// Nothing.
    Bare,
    /// An address.
    Address,
    /// Two addresses.
    Addresses,
    /// A number from 1 to the most that is allowed.
    Number { most: u64 },
    /// An address, then the word `sn` and a first sequence number; or an address alone, and the
    /// number is 1.
    Numbered,
    /// Two addresses, and a text that goes up to the line's end.
    Text,
    /// An address, and a number from 1 to the most that is allowed.
    AddressNumber { most: u64 },
    /// An address, and a text that goes up to the line's end.
    AddressText,
}
