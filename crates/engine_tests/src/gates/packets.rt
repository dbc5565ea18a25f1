use super::numbers::Numbers;

/// The first bytes of addresses.
const STARTS: [[u8; 3]; 4] = [[10, 0, 0], [10, 0, 1], [192, 168, 7], [172, 16, 255]];
/// Ports that rules name, and others.
const PORTS: [u16; 8] = [0, 22, 53, 80, 443, 1024, 40000, 65535];
/// TCP, UDP, ICMP, ICMPv6.
const PROTOCOLS: [u8; 4] = [6, 17, 1, 58];

pub fn port(numbers: &mut Numbers) -> u16 {
    PORTS[numbers.below(8) as usize]
}

pub fn protocol(numbers: &mut Numbers) -> u8 {
    PROTOCOLS[numbers.below(4) as usize]
}

/// An IPv4 address of few.
pub fn address(numbers: &mut Numbers) -> u32 {
    let [a, b, c] = STARTS[numbers.below(4) as usize];
    u32::from_be_bytes([a, b, c, (numbers.below(4) * 63) as u8])
}

/// An IPv6 address of few.
pub fn address6(numbers: &mut Numbers) -> u128 {
    let network = [0x2001_0db8u128, 0xfe80_0000][numbers.below(2) as usize];
    let subnet = u128::from(numbers.below(3));
    let host = u128::from(numbers.below(4)) * 0x7000_0001;
    network << 96 | subnet << 64 | host
}

fn put(bytes: &mut [u8], from: usize, part: &[u8]) {
    for (index, byte) in part.iter().enumerate() {
        let place = from.saturating_add(index);
        if place < bytes.len() {
            bytes[place] = *byte;
        }
    }
}

fn put_ports(bytes: &mut [u8], from: usize, numbers: &mut Numbers) {
    let source = port(numbers).to_be_bytes();
    let destination = port(numbers).to_be_bytes();
    put(bytes, from, &source);
    put(bytes, from.saturating_add(2), &destination);
    put(bytes, from.saturating_add(12), &[0x50]);
}

/// A header of 20 bytes and 20 behind it (RFC 791 section 3.1).
fn packet4(numbers: &mut Numbers) -> [u8; 60] {
    let mut bytes = [0; 60];
    let source = address(numbers).to_be_bytes();
    let destination = address(numbers).to_be_bytes();
    let protocol = protocol(numbers);
    let offset = if numbers.once_in(8) { 1 } else { 0 };
    put(
        &mut bytes,
        0,
        &[0x45, 0, 0, 40, 0, 0, 0, offset, 64, protocol],
    );
    put(&mut bytes, 12, &source);
    put(&mut bytes, 16, &destination);
    put_ports(&mut bytes, 20, numbers);
    bytes
}

/// A header of 40 bytes and 20 behind it (RFC 8200 section 3).
fn packet6(numbers: &mut Numbers) -> [u8; 60] {
    let mut bytes = [0; 60];
    let source = address6(numbers).to_be_bytes();
    let destination = address6(numbers).to_be_bytes();
    let protocol = protocol(numbers);
    put(&mut bytes, 0, &[0x60, 0, 0, 0, 0, 20, protocol, 64]);
    put(&mut bytes, 8, &source);
    put(&mut bytes, 24, &destination);
    put_ports(&mut bytes, 40, numbers);
    bytes
}

/// A packet of either version, and how many bytes it has.
pub fn packet_bytes(numbers: &mut Numbers) -> ([u8; 60], usize) {
    if numbers.once_in(3) {
        (packet6(numbers), 60)
    } else {
        (packet4(numbers), 40)
    }
}
