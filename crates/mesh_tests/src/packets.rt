//! Packets written out byte for byte.
use aodv_wire::{
    DataView, Message, Rrep, Rreq, WireError, read, write_data, write_rerr, write_rrep, write_rreq,
};
use mesh_base::{Addr, Packet};

const ONE: Addr = Addr(0x0a000001);

const TWO: Addr = Addr(0x0a000002);

const THREE: Addr = Addr(0x0a000003);

// A request with U and all reserved bits set.
const REQUEST: [u8; 24] = [
    1, 0x0f, 0xff, 0, 0, 0, 0, 1, 10, 0, 0, 1, 0, 0, 0, 0, 10, 0, 0, 2, 0, 0, 0, 2,
];

fn is_refused(bytes: &[u8], why: WireError) -> bool {
    matches!(read(bytes), Err(e) if e == why)
}

#[test]
fn refuses_as_the_formats_say(rt: HostRuntime) {
    let longer: [u8; 25] = [
        1, 0x0f, 0xff, 0, 0, 0, 0, 1, 10, 0, 0, 1, 0, 0, 0, 0, 10, 0, 0, 2, 0, 0, 0, 2, 0,
    ];
    let gratuitous: [u8; 24] = [
        1, 0x18, 0, 0, 0, 0, 0, 1, 10, 0, 0, 1, 0, 0, 0, 0, 10, 0, 0, 2, 0, 0, 0, 2,
    ];
    let no_number: [u8; 24] = [
        1, 0x08, 0, 0, 0, 0, 0, 1, 10, 0, 0, 1, 0, 0, 0, 0, 10, 0, 0, 2, 0, 0, 0, 0,
    ];
    let prefix: [u8; 20] = [
        2, 0, 5, 0, 10, 0, 0, 3, 0, 0, 0, 1, 10, 0, 0, 1, 0xff, 0xff, 0xff, 0xff,
    ];
    let twice: [u8; 20] = [3, 0, 0, 2, 10, 0, 0, 3, 0, 0, 0, 2, 10, 0, 0, 3, 0, 0, 0, 5];
    let no_body: [u8; 12] = [16, 0, 0, 0, 10, 0, 0, 3, 10, 0, 0, 1];
    let bad_data: [u8; 14] = [16, 0, 0, 1, 10, 0, 0, 3, 10, 0, 0, 1, 0x68, 0x69];
    let table: [(&[u8], WireError); 11] = [
        (&[], WireError::Short),
        (&[4, 0], WireError::UnknownType(4)),
        (&REQUEST[..23], WireError::WrongLength),
        (&longer, WireError::WrongLength),
        (&gratuitous, WireError::OutsideProfile),
        (&no_number, WireError::ZeroNumber),
        (&prefix, WireError::OutsideProfile),
        (&[3, 0, 0, 0], WireError::NoDestinations),
        (&twice, WireError::Repeated(THREE)),
        (&bad_data, WireError::BadData),
        (&no_body, WireError::WrongLength),
    ];
    for (bytes, error) in table {
        assert!(rt; is_refused(bytes, error), "{error}");
    }
}

fn is_request(bytes: &[u8], expected: Rreq) -> bool {
    matches!(read(bytes), Ok(Message::Rreq(m)) if m == expected)
}

fn is_reply(bytes: &[u8], expected: Rrep) -> bool {
    matches!(read(bytes), Ok(Message::Rrep(m)) if m == expected)
}

#[test]
fn reads_what_the_formats_say(rt: HostRuntime) {
    let request = Rreq {
        hops: 0,
        id: 1,
        dip: ONE,
        dsn: 0,
        known: false,
        oip: TWO,
        osn: 2,
    };
    assert!(rt; is_request(&REQUEST, request));
    let bytes: [u8; 20] = [2, 0, 0, 0, 10, 0, 0, 3, 0, 0, 0, 1, 10, 0, 0, 1, 0, 0, 0, 0];
    let reply = Rrep {
        hops: 0,
        dip: THREE,
        dsn: 1,
        oip: ONE,
    };
    assert!(rt; is_reply(&bytes, reply));
}

fn writes_a_request(out: &mut Packet) -> bool {
    let known = Rreq {
        hops: 7,
        id: 0x01020304,
        dip: ONE,
        dsn: 5,
        known: true,
        oip: TWO,
        osn: 6,
    };
    write_rreq(&known, out);
    out.as_slice()
        == [
            1, 0, 0, 7, 1, 2, 3, 4, 10, 0, 0, 1, 0, 0, 0, 5, 10, 0, 0, 2, 0, 0, 0, 6,
        ]
        .as_slice()
}

fn writes_a_reply(out: &mut Packet) -> bool {
    let reply = Rrep {
        hops: 8,
        dip: THREE,
        dsn: 9,
        oip: ONE,
    };
    write_rrep(&reply, out);
    out.as_slice()
        == [
            2, 0, 0, 8, 10, 0, 0, 3, 0, 0, 0, 9, 10, 0, 0, 1, 255, 255, 255, 255,
        ]
        .as_slice()
}

fn writes_a_datum(out: &mut Packet) -> bool {
    write_data(THREE, ONE, b"hi", out);
    out.as_slice() == [16, 0, 0, 0, 10, 0, 0, 3, 10, 0, 0, 1, 0x68, 0x69].as_slice()
        && matches!(read(out), Ok(Message::Parcel(datum)) if datum.body() == b"hi".as_slice())
}

fn writes_an_error(out: &mut Packet) -> bool {
    write_rerr(&[(ONE, 2), (THREE, 4)], out);
    if out.as_slice() != [3, 0, 0, 2, 10, 0, 0, 1, 0, 0, 0, 2, 10, 0, 0, 3, 0, 0, 0, 4].as_slice() {
        return false;
    }
    match read(out) {
        Ok(Message::Rerr(pairs)) => pairs.len() == 2 && pairs.pair(1) == (THREE, 4),
        _ => false,
    }
}

#[test]
fn writes_these_bytes(rt: HostRuntime) {
    let mut out = Packet::new();
    assert!(rt; writes_a_request(&mut out));
    assert!(rt; writes_a_reply(&mut out));
    assert!(rt; writes_a_datum(&mut out));
    assert!(rt; writes_an_error(&mut out));
}
