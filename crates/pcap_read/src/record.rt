/// A record of a capture, lent from the capture's buffer (pcap 2.4).
#[derive(Clone, Copy)]
pub struct Record<'a> {
    /// The second of its time.
    pub second: u32,
    /// The fraction of its time in nanoseconds, as the capture has it: a fraction that is a second or
    /// more is not carried. A fraction in microseconds is multiplied by 1000.
    pub nanos: u64,
    /// The captured bytes, at most 262,144.
    pub bytes: &'a [u8],
}
