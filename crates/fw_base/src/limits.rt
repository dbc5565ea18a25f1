/// How many captures are replayed at most. A world has a lane for each.
pub const MOST_CAPTURES: u32 = 16;

/// How many records all captures of a run have at most. A script waits for no more.
pub const MOST_RECORDS_OF_ALL: u32 = 33_554_432;

/// How many records a load has at most.
pub const MOST_LOAD_RECORDS: u32 = 1_000_000;

/// How many verdicts a cache holds at most.
pub const MOST_VERDICTS: u32 = 65_536;
