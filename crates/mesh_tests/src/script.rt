//! Lines that are refused, and one that is written back.
use crate::lines::two_nodes;
use mesh_base::{LineBuf, Mesh};
use mesh_grammar::Span;
use mesh_script::{LineFault, parse_line, print_line};
use std::test::Fail;

/// Lines before the first node, and their first faults.
const EARLY: [(&[u8], LineFault); 8] = [
    (b"nodes 10.0.0.1", LineFault::Word(Span { from: 0, to: 5 })),
    (b"turn", LineFault::Count),
    (b"turns", LineFault::Word(Span { from: 0, to: 5 })),
    (
        b"node 10.0.0.01",
        LineFault::BadAddress(Span { from: 5, to: 14 }),
    ),
    (
        b"node 10.0.0.1 sn 0",
        LineFault::BadNumber(Span { from: 17, to: 18 }),
    ),
    (
        b"data 10.0.0.1 10.0.0.2 ",
        LineFault::BadText(Span { from: 23, to: 23 }),
    ),
    (b"flight", LineFault::Early),
    (b"deliver 1", LineFault::Early),
];

/// Lines of a run of two nodes, and their first faults.
const LATE: [(&[u8], LineFault); 6] = [
    (b"node 10.0.0.3", LineFault::Late),
    (
        b"data 10.0.0.1 10.0.0.2 ",
        LineFault::BadText(Span { from: 23, to: 23 }),
    ),
    (
        b"turn 10.0.0.3",
        LineFault::Unknown(Span { from: 5, to: 13 }),
    ),
    (b"cut 10.0.0.2 10.0.0.2", LineFault::Same),
    (
        b"auto 1000001",
        LineFault::BadNumber(Span { from: 5, to: 12 }),
    ),
    (b"flight now", LineFault::Count),
];

fn are_refused(cases: &[(&[u8], LineFault)], mesh: &Mesh, started: bool) -> bool {
    for (line, fault) in cases {
        if parse_line(line, mesh, started).err() != Some(*fault) {
            return false;
        }
    }
    true
}

#[test]
fn the_first_fault_is_given(rt: HostRuntime) -> Result<(), Fail> {
    assert!(rt; are_refused(&EARLY, &Mesh::new(), false));
    assert!(rt; are_refused(&LATE, &two_nodes()?, true));
    Ok(())
}

/// Lines of a mesh of two nodes, and how they are written back.
const WRITTEN: [(&[u8], &[u8]); 4] = [
    (b"node 10.0.0.3", b"node 10.0.0.3 sn 1"),
    (
        b"data 10.0.0.2 10.0.0.1  a  b",
        b"data 10.0.0.2 10.0.0.1  a  b",
    ),
    (
        b"deliver 18446744073709551615",
        b"deliver 18446744073709551615",
    ),
    (b"# remark", b""),
];

fn is_written(line: &[u8], text: &[u8], mesh: &Mesh, out: &mut LineBuf) -> bool {
    match parse_line(line, mesh, false) {
        Ok(line) => {
            print_line(&line, mesh, out);
            out.as_slice() == text
        }
        Err(_) => false,
    }
}

fn are_written(cases: &[(&[u8], &[u8])], mesh: &Mesh) -> bool {
    let mut out = LineBuf::new();
    for (line, text) in cases {
        if !is_written(line, text, mesh, &mut out) {
            return false;
        }
    }
    true
}

#[test]
fn a_line_is_written_back(rt: HostRuntime) -> Result<(), Fail> {
    assert!(rt; are_written(&WRITTEN, &two_nodes()?));
    Ok(())
}
