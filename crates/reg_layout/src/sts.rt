// The bits of STS byte 0 (TIS Table 16), by their numbers.

pub const STS_VALID: u8 = 7;

pub const COMMAND_READY: u8 = 6;

pub const TPM_GO: u8 = 5;

pub const DATA_AVAIL: u8 = 4;

pub const EXPECT: u8 = 3;

pub const RESPONSE_RETRY: u8 = 1;
