//! What holds of the definitions: functions that do nothing, whose contracts are the laws.
ghost use Rattle.aodv_wire.specs.Laws.{EachBitOnce, EncodesOne, RepeatedIsFirst, OthersAreDistinct};

/// Each bit of a packet belongs to exactly one field of its table.
pub fn each_bit_once()
    ensures { EachBitOnce }
{}

/// A list of bytes encodes at most one message.
pub fn one_message()
    ensures { EncodesOne }
{}

/// The address that a refusal names is the first that repeats an earlier one; if no address is
/// refused, all are distinct.
pub fn repeated_is_first()
    ensures some { RepeatedIsFirst }
    ensures none { OthersAreDistinct }
{}
