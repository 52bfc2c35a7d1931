// The numbers that bound an image, its transactions and its script.

/// The greatest number of a commit, a generation or a transaction.
pub const LAST: u64 = 9_223_372_036_854_775_807;

/// How many transactions may be live.
pub const MAX_LIVE: usize = 1024;

/// How many accesses a transaction may have.
pub const MAX_ACCESSES: usize = 4096;

/// How many marks an access may have.
pub const MAX_SPANS: usize = 8;

/// How many bytes a line of a script may have before its line feed.
pub const MAX_LINE: usize = 16_384;

/// How many bytes of a script are read.
pub const MAX_INPUT: u64 = 4_294_967_296;
