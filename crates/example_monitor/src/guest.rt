// The guest: a driver in locality 0 that sends one command and reads its answer, cycle by cycle. It knows TIS, and no crate of ours.
use crate::monitor::Monitor;

const ACCESS: u64 = 0x0000;

const STS: u64 = 0x0018;

const FIFO: u64 = 0x0024;

// The bits that it writes: requestUse and activeLocality of ACCESS, commandReady and tpmGo of STS.
const REQUEST_USE: u8 = 0x02;

const ACTIVE_LOCALITY: u8 = 0x20;

const COMMAND_READY: u8 = 0x40;

const TPM_GO: u8 = 0x20;

// TPM_ContinueSelfTest: tag, size, ordinal.
const COMMAND: [u8; 10] = [0x00, 0xc1, 0x00, 0x00, 0x00, 0x0a, 0x00, 0x00, 0x00, 0x53];

// A driver on a monitor's bus; each of its cycles is printed by rt.
#[derive(Drop)]
pub struct Guest<'a, R> {
    rt: &'a R,
    monitor: &'a mut Monitor,
}

impl<'a, R: Print> Guest<'a, R> {
    pub fn new(rt: &'a R, monitor: &'a mut Monitor) -> Guest<'a, R> {
        Guest { rt, monitor }
    }

    fn write(&mut self, offset: u64, byte: u8) {
        self.monitor.write(self.rt, offset, byte);
    }

    fn read(&mut self, offset: u64) {
        self.monitor.read(self.rt, offset);
    }

    // It asks for the device and looks whether it has it.
    pub fn acquire(&mut self) {
        self.read(ACCESS);
        self.write(ACCESS, REQUEST_USE);
        self.read(ACCESS);
    }

    // commandReady: the device takes a command now.
    pub fn ready(&mut self) {
        self.write(STS, COMMAND_READY);
        self.read(STS);
    }

    // The command, byte by byte.
    pub fn send(&mut self) {
        for byte in COMMAND {
            self.write(FIFO, byte);
        }
    }

    // tpmGo, where nothing more is expected.
    pub fn go(&mut self) {
        self.read(STS);
        self.write(STS, TPM_GO);
        self.read(STS);
    }

    // The ten bytes of the answer, between two looks at dataAvail.
    pub fn answer(&mut self) {
        self.read(STS);
        for _ in 0..10 {
            self.read(FIFO);
        }
        self.read(STS);
    }

    // commandReady once more drops the answer; activeLocality gives the device up.
    pub fn release(&mut self) {
        self.write(STS, COMMAND_READY);
        self.write(ACCESS, ACTIVE_LOCALITY);
        self.read(ACCESS);
    }
}
