//! The bytes of a capture: the header of the file, and a packet for each copy that was heard or
//! lost.
ghost use Rattle.std.specs.Prelude.{◌≡◌, ◌≤◌, ◌<◌, ◌+◌, ◌-◌, ◌*◌, ◌/◌, ◌%◌, ◌^◌, ◌++◌, length, drop};
ghost use Rattle.arrayvec.specs.ArrayVec.{array_vec_len};
ghost use Rattle.byteorder.specs.Endian.{big_bytes};
ghost use Rattle.mesh_base.specs.declared.limits.TheConstants.{LONGEST_PACKET};
ghost use Rattle.mesh_capture.specs.declared.frame.TheConstants.{CAPACITY};
ghost use Rattle.mesh_capture.specs.Frames as frames;

use aodv_wire::is_data;
use arrayvec::ArrayVec;
use byteorder::{BigEndian, ByteOrder};
use mesh_lines::SharedPacket;

/// The UDP port of AODV's messages.
pub const AODV_PORT: u16 = 654;

/// The UDP port of data packets.
pub const DATA_PORT: u16 = 49654;

/// The link type of the capture: raw IPv4 packets.
pub const LINK_TYPE: u32 = 228;

// Room for the longest packet and its headers, in bytes.
const CAPACITY: usize = 2048;

/// A buffer in which the bytes of one packet are put together.
pub type FrameBuf = ArrayVec<u8, CAPACITY>;

/// A copy that was heard or lost.
#[derive(Drop)]
pub struct Frame {
    /// The number of the event that ended the copy, counted from 1.
    pub event: u64,
    /// The address of the copy's sender.
    pub from: u32,
    /// The address of the copy's receiver.
    pub to: u32,
    /// Whether the copy was lost.
    pub lost: bool,
    /// The copy's packet.
    pub packet: SharedPacket,
}

// Appends bytes.
fn put(bytes: &[u8], out: &mut FrameBuf)
    requires { array_vec_len out.old + length bytes.now ≤ CAPACITY }
    ensures text { out.new.items ≡ out.old.items ++ bytes.now }
    ensures length { array_vec_len out.new ≡ array_vec_len out.old + length bytes.now }
{
    if out.try_extend_from_slice(bytes).is_err() {
        unreachable!();
    }
}

// Appends a number of 16 bits.
fn put_u16(n: u16, out: &mut FrameBuf)
    requires { array_vec_len out.old + 2 ≤ CAPACITY }
    ensures text { out.new.items ≡ out.old.items ++ big_bytes 2 n }
    ensures length { array_vec_len out.new ≡ array_vec_len out.old + 2 }
{
    let mut bytes = [0; 2];
    BigEndian::write_u16(&mut bytes, n);
    put(&bytes, out);
}

// Appends a number of 32 bits.
fn put_u32(n: u32, out: &mut FrameBuf)
    requires { array_vec_len out.old + 4 ≤ CAPACITY }
    ensures text { out.new.items ≡ out.old.items ++ big_bytes 4 n }
    ensures length { array_vec_len out.new ≡ array_vec_len out.old + 4 }
{
    let mut bytes = [0; 4];
    BigEndian::write_u32(&mut bytes, n);
    put(&bytes, out);
}

// The first 16-bit word.
#[tactic(auto, using(crate::proofs::Sums::sum_two))]
fn first_word(bytes: &[u8]) -> u32
    requires { 2 ≤ length bytes.now }
    ensures sum { frames.words_sum bytes.now ≡ result + frames.words_sum (drop 2 bytes.now) }
    ensures fits { result ≤ 65535 }
{
    256 * u32::from(bytes[0]) + u32::from(bytes[1])
}

// The sum of the 16-bit words. A last byte without a partner is the high byte of its word.
#[tactic(auto, using(crate::proofs::Sums::sum_one, crate::proofs::Sums::sum_none))]
fn words_sum(bytes: &[u8]) -> u32
    requires { length bytes.now ≤ CAPACITY }
    ensures { result ≡ frames.words_sum bytes.now }
{
    let mut sum: u32 = 0;
    let mut rest = bytes;
    'words: while rest.len() >= 2 {
        sum += first_word(rest);
        let (_, others) = rest.split_at(2);
        rest = others;
    }
    if rest.is_empty() {
        return sum;
    }
    sum + 256 * u32::from(rest[0])
}

// A sum in ones' complement: what goes past 16 bits is added again.
fn carried(sum: u32) -> u16
    ensures { result ≡ frames.carry sum }
{
    match sum {
        0 => 0,
        _ => 1 + ((sum - 1) % 65535) as u16,
    }
}

// The Internet checksum (RFC 1071).
fn checksum(bytes: &[u8]) -> u16
    requires { length bytes.now ≤ CAPACITY }
    ensures { result ≡ frames.checksum bytes.now }
{
    65535 - carried(words_sum(bytes))
}

// A checksum of 0 is sent as 65535, since 0 says that there is none.
fn sent_checksum(sum: u16) -> u16
    ensures { result ≡ frames.sent_checksum sum }
{
    match sum {
        0 => 65535,
        _ => sum,
    }
}

fn port_of(packet: &[u8]) -> u16
    ensures { result ≡ frames.port_of packet.now }
{
    if is_data(packet) {
        DATA_PORT
    } else {
        AODV_PORT
    }
}

/// Appends the header of the file.
#[tactic(auto, unfolding(crate::specs::Frames::file_header))]
pub fn put_file_header(out: &mut FrameBuf)
    requires { array_vec_len out.old + 24 ≤ CAPACITY }
    ensures { out.new.items ≡ out.old.items ++ frames.file_header }
{
    put_u32(0xa1b2_c3d4, out);
    put_u16(2, out);
    put_u16(4, out);
    put_u32(0, out);
    put_u32(0, out);
    put_u32(65535, out);
    put_u32(LINK_TYPE, out);
}

impl Frame {
    // The size of the datagram in bytes.
    fn datagram_size(&self) -> u16
        requires { length self.now.packet ≤ LONGEST_PACKET }
        ensures { result ≡ frames.datagram_size self.now }
    {
        8 + self.packet.as_slice().len() as u16
    }

    // The size of the IPv4 packet in bytes.
    fn packet_size(&self) -> u16
        requires { length self.now.packet ≤ LONGEST_PACKET }
        ensures { result ≡ frames.packet_size self.now }
    {
        20 + self.datagram_size()
    }

    // Whether the copy was lost, as a number: 1 or 0.
    fn mark(&self) -> u16
        ensures { result ≡ frames.mark_of self.now.lost }
    {
        u16::from(self.lost)
    }

    // The whole seconds of the packet's time.
    fn seconds(&self) -> u32
        requires { self.now.event / 1000 < 2 ^ 32 }
        ensures { result ≡ self.now.event / 1000 }
    {
        (self.event / 1000) as u32
    }

    // The microseconds of the packet's time after the whole seconds.
    fn microseconds(&self) -> u32
        ensures { result ≡ 1000 * (self.now.event % 1000) }
    {
        1000 * (self.event % 1000) as u32
    }

    // Appends the datagram with this checksum.
    fn put_datagram_with(&self, sum: u16, out: &mut FrameBuf)
        requires short { length self.now.packet ≤ LONGEST_PACKET }
        requires room { array_vec_len out.old + frames.datagram_size self.now ≤ CAPACITY }
        ensures text { out.new.items ≡ out.old.items ++ frames.datagram_with sum self.now }
        ensures length { array_vec_len out.new
            ≡ array_vec_len out.old + frames.datagram_size self.now }
    {
        let packet = self.packet.as_slice();
        let port = port_of(packet);
        put_u16(port, out);
        put_u16(port, out);
        put_u16(self.datagram_size(), out);
        put_u16(sum, out);
        put(packet, out);
    }

    // Appends the pseudo-header, which the datagram's checksum covers too.
    fn put_pseudo_header(&self, out: &mut FrameBuf)
        requires short { length self.now.packet ≤ LONGEST_PACKET }
        requires room { array_vec_len out.old + 12 ≤ CAPACITY }
        ensures text { out.new.items ≡ out.old.items ++ frames.pseudo_header self.now }
        ensures length { array_vec_len out.new ≡ array_vec_len out.old + 12 }
    {
        put_u32(self.from, out);
        put_u32(self.to, out);
        put(&[0, 17], out);
        put_u16(self.datagram_size(), out);
    }

    // Appends the header of the IPv4 packet with this checksum.
    fn put_header_with(&self, sum: u16, out: &mut FrameBuf)
        requires short { length self.now.packet ≤ LONGEST_PACKET }
        requires room { array_vec_len out.old + 20 ≤ CAPACITY }
        ensures text { out.new.items ≡ out.old.items ++ frames.header_with sum self.now }
        ensures length { array_vec_len out.new ≡ array_vec_len out.old + 20 }
    {
        put(&[69, 0], out);
        put_u16(self.packet_size(), out);
        put_u16(self.mark(), out);
        put(&[0, 0, 64, 17], out);
        put_u16(sum, out);
        put_u32(self.from, out);
        put_u32(self.to, out);
    }

    // Appends what comes before the packet in the file: its time and its sizes.
    fn put_record(&self, out: &mut FrameBuf)
        requires short { length self.now.packet ≤ LONGEST_PACKET }
        requires soon { self.now.event / 1000 < 2 ^ 32 }
        requires room { array_vec_len out.old + 16 ≤ CAPACITY }
        ensures text { out.new.items ≡ out.old.items ++ frames.record_header self.now }
        ensures length { array_vec_len out.new ≡ array_vec_len out.old + 16 }
    {
        put_u32(self.seconds(), out);
        put_u32(self.microseconds(), out);
        let size = u32::from(self.packet_size());
        put_u32(size, out);
        put_u32(size, out);
    }

    // The checksum of the datagram, which is put together in `scratch`.
    fn datagram_checksum(&self, scratch: &mut FrameBuf) -> u16
        requires { length self.now.packet ≤ LONGEST_PACKET }
        ensures { result ≡ frames.datagram_checksum self.now }
    {
        scratch.clear();
        self.put_pseudo_header(scratch);
        self.put_datagram_with(0, scratch);
        sent_checksum(checksum(scratch.as_slice()))
    }

    // The checksum of the IPv4 header, which is put together in `scratch`.
    fn header_checksum(&self, scratch: &mut FrameBuf) -> u16
        requires { length self.now.packet ≤ LONGEST_PACKET }
        ensures { result ≡ frames.checksum (frames.header_with 0 self.now) }
    {
        scratch.clear();
        self.put_header_with(0, scratch);
        checksum(scratch.as_slice())
    }

    // Appends the packet with these checksums, as it is in the file.
    fn put_with(&self, header: u16, datagram: u16, out: &mut FrameBuf)
        requires short { length self.now.packet ≤ LONGEST_PACKET }
        requires soon { self.now.event / 1000 < 2 ^ 32 }
        requires room { array_vec_len out.old + 44 + length self.now.packet ≤ CAPACITY }
        ensures { out.new.items ≡ out.old.items ++ frames.record_header self.now
            ++ frames.header_with header self.now ++ frames.datagram_with datagram self.now }
    {
        self.put_record(out);
        self.put_header_with(header, out);
        self.put_datagram_with(datagram, out);
    }

    /// Replaces what the buffer holds by the packet as it is in the file. The copy's packet is no
    /// longer than a mesh may send, and the event's number in milliseconds is less than 2^32
    /// seconds.
    #[tactic(auto, unfolding(crate::specs::Frames::record_of, crate::specs::Frames::header, crate::specs::Frames::datagram))]
    pub fn put_into(&self, out: &mut FrameBuf)
        requires short { length self.now.packet ≤ LONGEST_PACKET }
        requires soon { self.now.event / 1000 < 2 ^ 32 }
        ensures { out.new.items ≡ frames.record_of self.now }
    {
        let header = self.header_checksum(out);
        let datagram = self.datagram_checksum(out);
        out.clear();
        self.put_with(header, datagram, out);
    }
}
