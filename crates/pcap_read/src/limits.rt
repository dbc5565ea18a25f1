/// How many records of a capture are given at most.
pub const MOST_RECORDS: u32 = 4_194_304;

/// How many captured bytes a record has at most.
pub const MOST_RECORD_BYTES: usize = 262_144;
