//! Positions of ids among rising ids.
ghost use Rattle.std.specs.Prelude.{ℕ, IfSome};
ghost use Rattle.mesh_radio.specs.Casts.{IsSplit, AreSorted};

// How many of the rising ids are at most this one, by binary search.
fn position_after(firsts: &[u64], id: u64) -> usize
    requires { AreSorted firsts.now }
    ensures { IsSplit firsts.now id result }
{
    let mut low = 0;
    let mut high = firsts.len();
    'halves: while low < high {
        let middle = low + (high - low) / 2;
        if firsts[middle] <= id {
            low = middle + 1;
        } else {
            high = middle;
        }
    }
    low
}

// How many of the rising ids are at most this one, if the last of them is at this position or at
// the one after it.
fn position_by(firsts: &[u64], id: u64, position: usize) -> Option<usize>
    requires { AreSorted firsts.now }
    ensures { IfSome result (IsSplit firsts.now id) }
{
    if position >= firsts.len() || firsts[position] > id {
        return None;
    }
    let after = position + 1;
    if after == firsts.len() || id < firsts[after] {
        return Some(after);
    }
    if after + 1 == firsts.len() || id < firsts[after + 1] {
        return Some(after + 1);
    }
    None
}

// The position that the id would have if the ids rose evenly, as those of casts to equally many
// nodes do. It only says where to look first.
fn even_position(firsts: &[u64], id: u64) -> usize {
    let len = firsts.len();
    if len == 0 {
        return 0;
    }
    let first = firsts[0];
    let last = firsts[len - 1];
    if id < first || last <= first {
        return 0;
    }
    ((id - first).wrapping_mul(len as u64 - 1) / (last - first)) as usize
}

/// How many of the rising ids are at most this one. The hint affects only how long this takes: no
/// search is needed if the last of them is at the hint or at the position after it, and mostly none
/// if the ids rise evenly.
#[inline(always)]
pub fn position_near(firsts: &[u64], id: u64, hint: usize) -> usize
    requires { AreSorted firsts.now }
    ensures { IsSplit firsts.now id result }
{
    if let Some(position) = position_by(firsts, id, hint) {
        return position;
    }
    if let Some(position) = position_by(firsts, id, even_position(firsts, id)) {
        return position;
    }
    position_after(firsts, id)
}
