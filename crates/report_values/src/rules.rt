/// A rule of an edition that the report lists.
#[derive(Clone, Copy)]
pub struct KnownRule<'a> {
    /// The edition's number, from 1.
    pub edition: u64,
    pub number: u16,
    /// The canonical text behind the number.
    pub text: &'a [u8],
}

/// A rule of the last edition with what it counted.
#[derive(Clone, Copy)]
pub struct CountedRule<'a> {
    pub number: u16,
    pub packets: u64,
    /// The total lengths of these packets.
    pub bytes: u64,
    /// The canonical text behind the number.
    pub text: &'a [u8],
}
