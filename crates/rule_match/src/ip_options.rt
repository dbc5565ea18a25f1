/// The type of strict source and record route (RFC 791 section 3.1), `ssrr` in a rule.
pub const STRICT_SOURCE_ROUTE: u8 = 137;
/// The type of loose source and record route, `lsrr`.
pub const LOOSE_SOURCE_ROUTE: u8 = 131;
/// The type of record route, `rr`.
pub const RECORD_ROUTE: u8 = 7;
/// The type of the internet timestamp, `ts`.
pub const TIME_STAMP: u8 = 68;
