// The numbers that document 01 bounds things by, each named once; `specs/Limits.antt` has the same names.

// C, the length of each lent FIFO.
pub const FIFO_LEAST: usize = 1024;

pub const FIFO_GREATEST: u16 = 8192;

// The shortest command that runs and the shortest answer.
pub const HEADER: u16 = 10;

// The most that burstCount shows.
pub const BURST_CAP: u16 = 512;

// The bytes that a hash sequence takes.
pub const HASH_LIMIT: u32 = 1_048_576;
