// Where the registers lie and which bits they have, by the names of TIS 1.2 (sections 8, 10 to 12); `specs` has the same names.
#![tactic(auto)]

pub mod access;
pub mod interrupt;
pub mod sts;

// Offsets within a page; INT_VECTOR has one byte, ACCESS too, STS three, IDENTITY (TIS's DID, VID and RID) five, the others four.
pub const ACCESS: u16 = 0x000;

pub const INT_ENABLE: u16 = 0x008;

pub const INT_VECTOR: u16 = 0x00c;

pub const INT_STATUS: u16 = 0x010;

pub const INTF_CAPABILITY: u16 = 0x014;

pub const STS: u16 = 0x018;

pub const DATA_FIFO: u16 = 0x024;

pub const IDENTITY: u16 = 0xf00;

// The bytes of a locality's page.
pub const PAGE: u16 = 0x1000;

// The last byte of page 4.
pub const LAST_OFFSET: u16 = 0x4fff;

// The locality whose page takes a hash sequence.
pub const HASH_LOCALITY: u8 = 4;

// Within that page alone, four offsets each; these count from page 0.
pub const HASH_END: u16 = 0x4020;

pub const HASH_DATA: u16 = 0x4024;

pub const HASH_START: u16 = 0x4028;
