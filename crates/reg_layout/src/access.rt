// The bits of ACCESS (TIS Table 15), by their numbers.

pub const TPM_REG_VALID_STS: u8 = 7;

pub const ACTIVE_LOCALITY: u8 = 5;

pub const BEEN_SEIZED: u8 = 4;

pub const SEIZE: u8 = 3;

pub const PENDING_REQUEST: u8 = 2;

pub const REQUEST_USE: u8 = 1;

pub const TPM_ESTABLISHMENT: u8 = 0;
