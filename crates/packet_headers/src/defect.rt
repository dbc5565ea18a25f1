/// Why the header of an IPv4 packet can't be read, in the order of the tests.
pub enum Defect {
    /// The frame ends within its link header.
    ShortLinkHeader = 1,
    /// The frame ends within its IPv4 header.
    ShortHeader = 2,
    /// The version isn't 4.
    WrongVersion = 3,
    /// The header's length is below five words.
    HeaderLength = 4,
    /// The total length is below the header's.
    TotalLength = 5,
}
