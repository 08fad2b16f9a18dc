//! Peers by their ports, lines that are refused, and lines that are written back.
use mesh_base::{Addr, LineBuf};
use mesh_grammar::Span;
use mesh_script::{LineFault, NodeLine, Peers, parse_node_line, print_node_line};

// Does a line that names a node. False if the line doesn't.
fn join(peers: &mut Peers, line: &[u8]) -> bool {
    match parse_node_line(line, peers, false) {
        Ok(NodeLine::Own { addr, first }) => peers.set_self(addr, first),
        Ok(NodeLine::Peer { addr, port }) => peers.add_peer(addr, port),
        _ => return false,
    }
    true
}

// The node itself, a peer with a lower address at port 7, and one with a higher address at port 9.
fn three(peers: &mut Peers) -> bool {
    join(peers, b"self 10.0.0.2 sn 5")
        && join(peers, b"peer 10.0.0.1 7")
        && join(peers, b"peer 10.0.0.3 9")
}

fn have_ports(peers: &Peers) -> bool {
    peers.me() == Some(1)
        && peers.at_port(7) == Some(0)
        && peers.at_port(9) == Some(2)
        && peers.at_port(8).is_none()
        && peers.at_port(0).is_none()
        && peers.mesh().index_of(Addr(0x0a00_0002)) == Some(1)
}

#[test]
fn each_peer_has_its_port(rt: HostRuntime) {
    let mut peers = Peers::new();
    assert!(rt; three(&mut peers) && have_ports(&peers));
}

/// Lines before a node is named, and their first faults.
const EARLY: [(&[u8], LineFault); 7] = [
    (
        b"link 10.0.0.1 10.0.0.2",
        LineFault::Word(Span { from: 0, to: 4 }),
    ),
    (b"self 10.0.0.1 sn", LineFault::Count),
    (
        b"self 10.0.0.1 sn 0",
        LineFault::BadNumber(Span { from: 17, to: 18 }),
    ),
    (
        b"peer 10.0.0.1 65536",
        LineFault::BadNumber(Span { from: 14, to: 19 }),
    ),
    (
        b"data 10.0.0.1 ",
        LineFault::BadText(Span { from: 14, to: 14 }),
    ),
    (b"poll 1001", LineFault::BadNumber(Span { from: 5, to: 9 })),
    (b"up 10.0.0.1", LineFault::Early),
];

/// Lines after the three nodes were named, and their first faults.
const NAMED: [(&[u8], LineFault); 6] = [
    (
        b"self 10.0.0.9",
        LineFault::TwiceNode(Span { from: 5, to: 13 }),
    ),
    (
        b"peer 10.0.0.1 7",
        LineFault::TwiceNode(Span { from: 5, to: 13 }),
    ),
    (
        b"peer 10.0.0.12 7",
        LineFault::TwiceNode(Span { from: 15, to: 16 }),
    ),
    (b"up 10.0.0.2", LineFault::Same),
    (
        b"down 10.0.0.4",
        LineFault::Unknown(Span { from: 5, to: 13 }),
    ),
    (b"show 10.0.0.2", LineFault::Count),
];

/// A line after the run has started, and its first fault.
const STARTED: [(&[u8], LineFault); 1] = [(b"peer 10.0.0.4 1", LineFault::Late)];

fn are_refused(cases: &[(&[u8], LineFault)], peers: &Peers, started: bool) -> bool {
    for (line, fault) in cases {
        if parse_node_line(line, peers, started).err() != Some(*fault) {
            return false;
        }
    }
    true
}

fn faults_are_given(peers: &mut Peers) -> bool {
    are_refused(&EARLY, peers, false)
        && three(peers)
        && are_refused(&NAMED, peers, false)
        && are_refused(&STARTED, peers, true)
}

#[test]
fn the_first_fault_is_given(rt: HostRuntime) {
    let mut peers = Peers::new();
    assert!(rt; faults_are_given(&mut peers));
}

/// Lines after the three nodes were named, and how they are written back.
const WRITTEN: [(&[u8], &[u8]); 6] = [
    (b"peer 10.0.0.4 65535", b"peer 10.0.0.4 65535"),
    (b"data 10.0.0.1  a  b", b"data 10.0.0.1  a  b"),
    (b"turn 1000", b"turn 1000"),
    (b"down 10.0.0.3", b"down 10.0.0.3"),
    (b"show", b"show"),
    (b"# remark", b""),
];

fn is_written(line: &[u8], text: &[u8], peers: &Peers, out: &mut LineBuf) -> bool {
    match parse_node_line(line, peers, false) {
        Ok(line) => {
            print_node_line(&line, peers, out);
            out.as_slice() == text
        }
        Err(_) => false,
    }
}

fn are_written(cases: &[(&[u8], &[u8])], peers: &Peers, out: &mut LineBuf) -> bool {
    for (line, text) in cases {
        if !is_written(line, text, peers, out) {
            return false;
        }
    }
    true
}

fn lines_are_written(peers: &mut Peers, out: &mut LineBuf) -> bool {
    is_written(b"self 10.0.0.1", b"self 10.0.0.1 sn 1", peers, out)
        && three(peers)
        && are_written(&WRITTEN, peers, out)
}

#[test]
fn a_line_is_written_back(rt: HostRuntime) {
    let mut peers = Peers::new();
    assert!(rt; lines_are_written(&mut peers, &mut LineBuf::new()));
}
