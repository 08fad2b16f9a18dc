//! Entries and their numbers, and the numbers of destinations.
use aodv_model::{Dests, Entry, Flag, Known, better, inc, nsqn};
use mesh_base::NodeSet;

// Whether node 2 has the number 7, and no other node has one.
fn has_one(dests: &Dests) -> bool {
    matches!(dests.number(2), Some(7))
        && dests.number(3).is_none()
        && dests.len() == 1
        && dests.pair(0) == (2, 7)
}

#[test]
fn finds_the_number_of_a_destination(rt: HostRuntime) {
    let mut dests = Dests::new();
    assert!(rt; dests.is_empty());
    dests.push(2, 7);
    assert!(rt; has_one(&dests));
    dests.clear();
    assert!(rt; dests.number(2).is_none());
}

fn entry(dsn: u32, flag: Flag, hops: u8) -> Entry {
    Entry {
        dsn,
        dsk: Known::Kno,
        flag,
        hops,
        next: 1,
        pre: NodeSet::new(),
    }
}

#[test]
fn a_number_is_raised_unless_it_is_0_or_the_last(rt: HostRuntime) {
    assert!(rt; matches!(inc(0), Some(0)));
    assert!(rt; matches!(inc(5), Some(6)));
    assert!(rt; inc(4294967295).is_none());
}

// Whether an entry with number 6 and 3 hops, which is broken, is as good as a valid one with number
// 5 and 3 hops.
fn is_as_good_as_before(broken: &Entry) -> bool {
    nsqn(broken) == 5
        && better(&entry(5, Flag::Val, 2), broken)
        && !better(&entry(5, Flag::Val, 3), broken)
        && better(&entry(6, Flag::Val, 9), broken)
}

#[test]
fn an_invalid_entry_is_as_good_as_the_number_before_its_break(rt: HostRuntime) {
    let broken = entry(6, Flag::Inv, 3);
    assert!(rt; is_as_good_as_before(&broken));
    assert!(rt; broken.same(&entry(6, Flag::Inv, 3)));
    assert!(rt; !broken.same(&entry(6, Flag::Val, 3)));
}
