// What a monitor does with the front: it keeps the record, lends the two FIFOs, and looks at each refusal.
use crate::{FIFO_BYTES, engine, print};
use record::{Device, Phase};

// Vendor, device and revision, as the guest reads them at 0F00.
const IDENTITY: [u8; 5] = [0x14, 0x10, 0x01, 0x00, 0x01];

// The record of the device and its two FIFOs: these are all that a monitor is, and README.md shows it so; the handle that prints is lent to
// each method.
#[derive(Drop)]
pub struct Monitor {
    device: Device,
    write_fifo: [u8; FIFO_BYTES],
    read_fifo: [u8; FIFO_BYTES],
}

impl Monitor {
    pub fn power_on(rt: &impl Print) -> Monitor {
        let mut write_fifo = [0; FIFO_BYTES];
        let mut read_fifo = [0; FIFO_BYTES];
        let o = tis::power_on(false, IDENTITY, &mut write_fifo, &mut read_fifo);
        print::call(rt, "power-on", o.refusal);
        Monitor {
            device: o.device,
            write_fifo,
            read_fifo,
        }
    }

    // A byte that the guest writes is one call.
    pub fn write(&mut self, rt: &impl Print, offset: u64, byte: u8) {
        let o = tis::write(
            self.device,
            &mut self.write_fifo,
            &mut self.read_fifo,
            offset,
            byte,
        );
        self.device = o.device;
        print::call(rt, format_args!("write {offset:04x} {byte:02x}"), o.refusal);
    }

    // And so is one that it reads.
    pub fn read(&mut self, rt: &impl Print, offset: u64) {
        let o = tis::read(self.device, &self.write_fifo, &self.read_fifo, offset);
        self.device = o.device;
        print::call(
            rt,
            format_args!("read  {offset:04x} {:02x}", o.byte),
            o.refusal,
        );
    }

    // After a cycle the monitor looks whether the engine has work: in Execution alone.
    pub fn serve(&mut self, rt: &impl Print) {
        if matches!(self.device.phase, Phase::Execution(_)) {
            self.answer(rt);
        }
    }

    // The command is what the window shows.
    fn answer(&mut self, rt: &impl Print) {
        let shown = tis::window(self.device, &self.write_fifo, &self.read_fifo);
        print::call(
            rt,
            format_args!("window {}", print::Bytes(shown.bytes)),
            shown.refusal,
        );
        let answer = engine::answer(shown.bytes);
        self.respond(rt, &answer);
    }

    // The answer carries the run number, so that one that comes too late is refused.
    fn respond(&mut self, rt: &impl Print, answer: &[u8]) {
        let run = self.device.control.run;
        let o = tis::respond(
            self.device,
            &mut self.write_fifo,
            &mut self.read_fifo,
            run,
            answer,
        );
        self.device = o.device;
        print::call(
            rt,
            format_args!("respond{}", print::Bytes(answer)),
            o.refusal,
        );
    }

    // An answer to a run that has ended is refused as 3.
    pub fn late_answer(&mut self, rt: &impl Print) {
        self.respond(rt, &engine::answer(b""));
    }
}
