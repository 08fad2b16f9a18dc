//! Putting what waits in an inbox into an encoder.
ghost use Rattle.mesh_save.specs.Bytes.{item_bytes, inbox_bytes};

use crate::encoder::Encoder;
use crate::fields::{put_text, put_truth, put16, put32};
use aodv_inbox::Inbox;
use mesh_base::Item;

// Puts an item.
fn put_item<P: Encoder>(encoder: &mut P, item: &Item)
    ensures { P.wrote encoder.old (item_bytes item.now) encoder.new }
{
    match item {
        Item::New { dest, body } => {
            put_truth(encoder, false);
            put16(encoder, *dest as u64);
            put_text(encoder, body.as_slice());
        }
        Item::Heard { from, bytes } => {
            put_truth(encoder, true);
            put16(encoder, *from as u64);
            put_text(encoder, bytes.as_slice());
        }
    }
}

/// Puts the inbox, after the number of its items.
pub(crate) fn put_inbox<P: Encoder>(encoder: &mut P, inbox: &Inbox)
    ensures { P.wrote encoder.old (inbox_bytes inbox.now.items) encoder.new }
{
    let count = inbox.len();
    put32(encoder, count as u64);
    for k in 0..count {
        put_item(encoder, inbox.at(k));
    }
}
