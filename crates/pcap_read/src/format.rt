use fw_base::Link;

/// What a capture's header says of its records (pcap 2.4).
#[derive(Clone, Copy)]
pub struct Format {
    pub order: ByteOrder,
    pub fraction: Fraction,
    pub link: Link,
}

/// The order of a number's bytes in a capture (pcap 2.4): that of the machine that wrote it.
#[derive(Clone, Copy)]
pub enum ByteOrder {
    /// The low byte first.
    Little,
    /// The high byte first.
    Big,
}

/// What the second number of a record's time counts (pcap 2.4).
#[derive(Clone, Copy)]
pub enum Fraction {
    /// Microseconds, magic number 0xa1b2c3d4.
    Micros,
    /// Nanoseconds, magic number 0xa1b23c4d.
    Nanos,
}
