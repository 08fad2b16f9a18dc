//! Putting the data that wait for a route into an encoder.
ghost use Rattle.std.specs.Prelude.{◌≡◌, ◌<◌, length};
ghost use Rattle.std.specs.FinMap as maps;
ghost use Rattle.aodv_model.specs.Cores.{bodies_in, needs_in};
ghost use Rattle.aodv_model.specs.Soundness.{IsStoreInMesh};
ghost use Rattle.mesh_checkpoint.specs.Points.{waits_of, waits_in};
ghost use Rattle.mesh_save.specs.Bytes.{bytes_if, waits_bytes, store_bytes};

use crate::encoder::Encoder;
use crate::fields::{put_text, put_truth, put16, put32};
use aodv_waiting::Waiting;

// Puts what waits for a destination.
fn put_waits<P: Encoder>(encoder: &mut P, waiting: &Waiting, dest: usize)
    requires { dest < length waiting.now.rooms }
    ensures { P.wrote encoder.old (waits_bytes (record {
      dest = dest;
      needs_request = needs_in (maps.get waiting.now.store dest);
      bodies = bodies_in (maps.get waiting.now.store dest);
    })) encoder.new }
{
    let count = waiting.count(dest);
    put16(encoder, dest as u64);
    put_truth(encoder, waiting.needs_request(dest));
    put32(encoder, count as u64);
    for k in 0..count {
        put_text(encoder, waiting.datum(dest, k));
    }
}

// Puts what waits for a destination, if anything does.
fn put_waits_for<P: Encoder>(encoder: &mut P, waiting: &Waiting, dest: usize)
    requires dest { dest < length waiting.now.rooms }
    requires sound { IsStoreInMesh (length waiting.now.rooms) waiting.now.store }
    ensures { P.wrote encoder.old
        (bytes_if (λ w. waits_bytes (waits_of (dest, w))) (maps.get waiting.now.store dest))
        encoder.new }
{
    if waiting.has(dest) {
        put_waits(encoder, waiting, dest);
    }
}

// For how many destinations data wait.
fn count_waits(waiting: &Waiting, nodes: usize) -> u64
    requires size { length waiting.now.rooms ≡ nodes }
    requires sound { IsStoreInMesh nodes waiting.now.store }
    ensures { result ≡ length (waits_in waiting.now.store) }
{
    let mut count = 0;
    for dest in 0..nodes {
        count += u64::from(waiting.has(dest));
    }
    count
}

/// Puts the store, after the number of destinations for which data wait.
pub(crate) fn put_store<P: Encoder>(encoder: &mut P, waiting: &Waiting, nodes: usize)
    requires size { length waiting.now.rooms ≡ nodes }
    requires sound { IsStoreInMesh nodes waiting.now.store }
    ensures { P.wrote encoder.old (store_bytes (waits_in waiting.now.store)) encoder.new }
{
    put16(encoder, count_waits(waiting, nodes));
    for dest in 0..nodes {
        put_waits_for(encoder, waiting, dest);
    }
}
