//! What a channel decides of a copy, by random words.
ghost use Rattle.std.specs.Prelude.{◌≡◌};
ghost use Rattle.mesh_make.specs.Words.{word, after};
ghost use Rattle.mesh_fates.specs.Rates.{loss_of};
ghost use Rattle.mesh_fates.specs.Fates.{happens_at, delay_by, next_lot, draw};

use crate::rates::Rates;
use mesh_make::next;
use rand_pcg::Lcg64Xsh32;

/// Whether a copy is lost, and by how many ticks it is late.
#[derive(Clone, Copy)]
pub struct Lot {
    pub lost: bool,
    pub delay: u16,
}

/// The lot of a copy, and that of its double if it is doubled.
#[derive(Clone, Copy)]
pub struct Fate {
    pub lot: Lot,
    pub double: Option<Lot>,
}

// Whether something with this rate, in thousandths, happens by the next word.
fn happens(rate: u16, rng: &mut Lcg64Xsh32) -> bool
    ensures happens { result ≡ happens_at rate (word rng.old) }
    ensures after { rng.new ≡ after rng.old }
{
    next(rng) % 1000 < u32::from(rate)
}

// The delay by the next word.
pub(crate) fn draw_delay(rates: &Rates, rng: &mut Lcg64Xsh32) -> u16
    ensures delay { result ≡ delay_by rates.now (word rng.old) }
    ensures after { rng.new ≡ after rng.old }
{
    (next(rng) % (u32::from(rates.late) + 1)) as u16
}

// The rate of loss of the copies of a cast.
fn loss_of(rates: &Rates, unicast: bool) -> u16
    ensures { result ≡ loss_of rates.now unicast }
{
    if unicast {
        rates.loss_unicast
    } else {
        rates.loss
    }
}

// The lot by the next two words.
fn draw_lot(rates: &Rates, unicast: bool, rng: &mut Lcg64Xsh32) -> Lot
    ensures lot { result ≡ next_lot rates.now unicast rng.old }
    ensures after { rng.new ≡ after (after rng.old) }
{
    let lost = happens(loss_of(rates, unicast), rng);
    let delay = draw_delay(rates, rng);
    Lot { lost, delay }
}

/// The fate of a copy, by the next three words, or by five if it is doubled.
#[tactic(auto, unfolding(crate::specs::Fates::draw))]
pub(crate) fn draw_fate(rates: &Rates, unicast: bool, rng: &mut Lcg64Xsh32) -> Fate
    ensures fate { result ≡ (draw rates.now unicast rng.old).fate }
    ensures after { rng.new ≡ (draw rates.now unicast rng.old).rng }
{
    let lot = draw_lot(rates, unicast, rng);
    let double = if happens(rates.double, rng) {
        Some(draw_lot(rates, unicast, rng))
    } else {
        None
    };
    Fate { lot, double }
}
