// The bits of INT_ENABLE and INT_STATUS (TIS Tables 20, 22), by their numbers.

pub const COMMAND_READY: u8 = 7;

// typePolarity, bits 4 and 3: 01 is low level.
pub const LOW_LEVEL: u8 = 3;

pub const LOCALITY_CHANGE: u8 = 2;

pub const DATA_AVAIL: u8 = 0;

// globalIntEnable is bit 31: bit 7 of byte 3.
pub const GLOBAL_BYTE: u8 = 3;

pub const GLOBAL_INT_ENABLE: u8 = 7;
