// Writes the vectors of the layers below, for comparison with `stdout`: RFC 3720's CRC-32C values (B.4) and the check value of
// "123456789", a unit's checksum, numbers in both byte orders, the packed fields of a head and a card, and a map of bits.
// `stdout` was written from the documents.
#![tactic(auto)]

use format::card::CARD_BYTES;
use std::io;

// The 48 bytes of an iSCSI Read (10) command PDU.
const READ_10: [u8; 48] = [
    0x01, 0xc0, 0x00, 0x00, 0x00, 0x00, 0x00, 0x00, 0x00, 0x00, 0x00, 0x00, 0x00, 0x00, 0x00, 0x00,
    0x14, 0x00, 0x00, 0x00, 0x00, 0x00, 0x04, 0x00, 0x00, 0x00, 0x00, 0x14, 0x00, 0x00, 0x00, 0x18,
    0x28, 0x00, 0x00, 0x00, 0x00, 0x00, 0x00, 0x00, 0x02, 0x00, 0x00, 0x00, 0x00, 0x00, 0x00, 0x00,
];

// 00 up to 1f.
const UP: [u8; 32] = [
    0, 1, 2, 3, 4, 5, 6, 7, 8, 9, 10, 11, 12, 13, 14, 15, 16, 17, 18, 19, 20, 21, 22, 23, 24, 25,
    26, 27, 28, 29, 30, 31,
];

// 1f down to 00.
const DOWN: [u8; 32] = [
    31, 30, 29, 28, 27, 26, 25, 24, 23, 22, 21, 20, 19, 18, 17, 16, 15, 14, 13, 12, 11, 10, 9, 8,
    7, 6, 5, 4, 3, 2, 1, 0,
];

// A uuid whose bytes all differ.
const UUID: [u8; 16] = [
    0xf0, 0xf1, 0xf2, 0xf3, 0xf4, 0xf5, 0xf6, 0xf7, 0xf8, 0xf9, 0xfa, 0xfb, 0xfc, 0xfd, 0xfe, 0xff,
];

// A name, and each byte as two hexadecimal digits.
fn bytes_line(rt: &impl Print, name: &str, s: &[u8]) -> io::Result<()> {
    print!(rt; "{name}")?;
    for byte in s {
        print!(rt; "{byte:02x}")?;
    }
    println!(rt)
}

// The five of B.4.
fn rfc_3720(rt: &impl Print) -> io::Result<()> {
    println!(rt; "32 bytes of 00: {:08x}", crc32c::checksum(&[0u8; 32]))?;
    println!(rt; "32 bytes of ff: {:08x}", crc32c::checksum(&[0xffu8; 32]))?;
    println!(rt; "00 up to 1f: {:08x}", crc32c::checksum(&UP))?;
    println!(rt; "1f down to 00: {:08x}", crc32c::checksum(&DOWN))?;
    println!(rt; "Read (10): {:08x}", crc32c::checksum(&READ_10))
}

// The check value again, fed in two parts.
fn in_parts(rt: &impl Print) -> io::Result<()> {
    let t = crc32c_tables::tables();
    let c = crc32c::feed(&t, crc32c::begin(), b"1234");
    let c = crc32c::finish(crc32c::feed(&t, c, b"56789"));
    println!(rt; "1234 and 56789: {c:08x}")
}

// 64 bits in both orders.
fn numbers(rt: &impl Print) -> io::Result<()> {
    let mut s = [0u8; 8];
    words::put_be64(&mut s, 0, 0x0102_0304_0506_0708);
    bytes_line(rt, "be64: ", &s)?;
    println!(rt; "le64 of it: {}", words::le64(&s, 0))?;
    words::put_le64(&mut s, 0, 0x0102_0304_0506_0708);
    bytes_line(rt, "le64: ", &s)
}

// 32 bits in both orders.
fn narrow_numbers(rt: &impl Print) -> io::Result<()> {
    let mut s = [0u8; 4];
    words::put_le32(&mut s, 0, 0x0102_0304);
    bytes_line(rt, "le32: ", &s)?;
    println!(rt; "be32 of it: {}", words::be32(&s, 0))
}

// A head whose `extents` lies across the two words.
fn head(rt: &impl Print) -> io::Result<()> {
    let mut s = [0u8; 12];
    fields::put_head(
        &mut s,
        0,
        fields::Head {
            blocks: 0x1_0000,
            reserved: 1,
            hint: 2,
            cards: 3,
            extents: 0xf_fff4,
            groups: 5,
        },
    );
    bytes_line(rt, "head: ", &s)?;
    let h = fields::read_head(&s, 0);
    println!(rt; "extents of it: {}", h.extents)
}

// A card whose `allocated`, `seconds` and creation time lie across two words.
fn card(rt: &impl Print) -> io::Result<()> {
    let mut s = [0u8; CARD_BYTES];
    fields::put_card(
        &mut s,
        0,
        fields::Card {
            object: 0x0123_4567_89ab_cdef,
            size: 0x7fff_ffff_ffff_fffe,
            allocated: 0x4_0000_0001,
            seconds: 0x4000_0000_0000_0003,
            nanoseconds: 999_999_999,
            created_seconds: 0x4000_0000_0000_0005,
            created_nanoseconds: 0x2000_0003,
            spare: 0x8_0000_0001,
        },
    );
    bytes_line(rt, "card: ", &s)?;
    let c = fields::read_card(&s, 0);
    println!(rt; "allocated of it: {}", c.allocated)?;
    println!(rt; "seconds of it: {}", c.seconds)?;
    println!(rt; "creation seconds of it: {}", c.created_seconds)?;
    println!(rt; "creation nanoseconds of it: {}", c.created_nanoseconds)
}

// A map of 96 bits: a range set in single bits and in whole bytes, and one bit of it cleared.
fn bits(rt: &impl Print) -> io::Result<()> {
    let mut m = [0u8; 12];
    bitmap::set_range(&mut m, 3, 85);
    bitmap::clear(&mut m, 80);
    bytes_line(rt, "bits 3 to 84 less 80: ", &m)?;
    println!(rt; "next clear from 3: {}", bitmap::next_clear(&m, 3, 96))?;
    println!(rt; "next set from 81: {}", bitmap::next_set(&m, 81, 96))?;
    println!(rt; "next clear of 3 to 79: {}", bitmap::next_clear(&m, 3, 80))?;
    println!(rt; "set bits: {}", bitmap::count_set(&m, 0, 96))
}

fn main(rt: HostRuntime) -> io::Result<()> {
    rfc_3720(&rt)?;
    println!(rt; "123456789: {:08x}", crc32c::checksum(b"123456789"))?;
    in_parts(&rt)?;
    println!(rt;
        "unit: {:08x}",
        crc32c::unit_checksum(&UUID, 0x0102_0304_0506_0708, 9, b"123456789")
    )?;
    numbers(&rt)?;
    narrow_numbers(&rt)?;
    head(&rt)?;
    card(&rt)?;
    bits(&rt)
}
