//! Lines about places, and the changes of links that follow from them.
use crate::lines::two_nodes;
use mesh_base::{Event, MOST_NODES, Mesh, NodeSet};
use mesh_grammar::{LineFault, Span};
use mesh_grid::{Place, Places, Placing, placing_of};
use std::test::Fail;

/// Lines before the first node, and their first faults.
const EARLY: [(&[u8], LineFault); 7] = [
    (b"link 10.0.0.1", LineFault::Word(Span { from: 0, to: 4 })),
    (b"place 10.0.0.1 5", LineFault::Count),
    (b"move 10.0.0.1 5 5 5", LineFault::Count),
    (
        b"place 10.0.0 x 5",
        LineFault::BadAddress(Span { from: 6, to: 12 }),
    ),
    (
        b"place 10.0.0.1 1000001 5",
        LineFault::BadNumber(Span { from: 15, to: 22 }),
    ),
    (
        b"place 10.0.0.1 0 05",
        LineFault::BadNumber(Span { from: 17, to: 19 }),
    ),
    (b"place 10.0.0.1 0 0", LineFault::Early),
];

/// A line of a mesh of two nodes, and its first fault.
const LATE: [(&[u8], LineFault); 1] = [(
    b"move 10.0.0.3 0 0",
    LineFault::Unknown(Span { from: 5, to: 13 }),
)];

fn are_refused(cases: &[(&[u8], LineFault)], mesh: &Mesh) -> bool {
    for (line, fault) in cases {
        if placing_of(line, mesh).err() != Some(*fault) {
            return false;
        }
    }
    true
}

#[test]
fn the_first_fault_is_given(rt: HostRuntime) -> Result<(), Fail> {
    assert!(rt; are_refused(&EARLY, &Mesh::new()));
    assert!(rt; are_refused(&LATE, &two_nodes()?));
    Ok(())
}

// Whether node 0 comes to a place by the first line about it.
fn comes(places: &mut Places, mesh: &Mesh) -> bool {
    let Ok(Some(first)) = placing_of(b"place 10.0.0.1 0 1000000", mesh) else {
        return false;
    };
    if first.node >= MOST_NODES || !places.may_come(&first) {
        return false;
    }
    places.come(&first);
    true
}

// Whether node 1 is linked to node 0 when it comes to a place 100 from it: within a reach of 100,
// and not within one of 99.
fn are_linked_at_100(places: &Places) -> bool {
    let near = NodeSet::new();
    let second = Placing {
        first: true,
        node: 1,
        place: Place { x: 60, y: 999_920 },
    };
    let change = places.change_at(100, &near, &second, 0);
    matches!(change, Some(Event::Link { a: 0, b: 1 }))
        && places.change_at(99, &near, &second, 0).is_none()
}

#[test]
fn links_change_at_the_reach(rt: HostRuntime) -> Result<(), Fail> {
    let mut places = Places::new();
    assert!(rt; comes(&mut places, &two_nodes()?));
    assert!(rt; are_linked_at_100(&places));
    Ok(())
}
