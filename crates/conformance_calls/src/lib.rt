// The calls that a line of the sheet names, each with the line that shows what it gave.
#![tactic(auto)]

ghost use Rattle.std.specs.Iterator.{IsFinite};

use arbiter::Locality;
use conformance_lines::line::FREE;
use conformance_lines::results::Line;
use pcr::PcrIndex;
use record::Device;
use record::limits::FIFO_GREATEST;
use refusal::number_of;
use std::iter::repeat_n;
use tis::ReadOutcome;

// The most bytes that a line lends, writes or reads: more than the greatest C, so that a length beyond it can be played.
// Not `replay_form`'s 9,000: that is part of the form of docs/REPLAY.md, this is the sheet's own, and one constant would tie the sheet to that form.
pub const LONGEST: usize = 9000;

// The device on the bench, with the FIFOs that its calls are lent.
#[derive(Drop)]
pub struct Bench<'a> {
    pub device: Device,
    pub write_fifo: &'a mut [u8],
    pub read_fifo: &'a mut [u8],
}

// Of many reads the bits in which any byte differs from the one expected, and of all their refusal numbers, as the sheet has them in one byte.
#[derive(Clone, Copy, Default)]
struct Received {
    differences: u8,
    refusals: u8,
}

impl Bench<'_> {
    // A power-on as the sheet has it: not established. The refusal number expected is the line's byte.
    pub fn power_on(&mut self, line: &Line<'_, impl Print>) {
        let o = tis::power_on(false, [0; 5], self.write_fifo, self.read_fifo);
        self.device = o.device;
        line.show_power_on(self.write_fifo.len(), o.refusal);
    }

    // The refusal number expected is the line's byte.
    pub fn reset(&mut self, line: &Line<'_, impl Print>) {
        let o = tis::reset(self.device, self.write_fifo, self.read_fifo);
        self.device = o.device;
        line.show_reset(o.refusal);
    }

    // The bytes are written at the offset, one after the other: the bits of all refusal numbers, 0 where each was accepted.
    fn send<I: Iterator<Item = u8> + Drop>(&mut self, offset: u16, bytes: I) -> u8
        requires can { I.can_next bytes }
        requires ends { IsFinite (I.remaining bytes) }
    {
        let offset = u64::from(offset);
        let mut refusals = 0;
        for byte in bytes {
            let o = tis::write(self.device, self.write_fifo, self.read_fifo, offset, byte);
            self.device = o.device;
            refusals |= number_of(o.refusal);
        }
        refusals
    }

    // The byte is written as often as the line says; the bits of all refusal numbers are those expected.
    pub fn write(&mut self, line: &Line<'_, impl Print>) {
        let n = line.step.times();
        let refusals = self.send(line.step.offset(), repeat_n(line.step.byte, n));
        line.show_writes(" x ", n, refusals);
    }

    // As many characters of the line as its byte says, 40 at most, are written at the offset.
    pub fn text(&mut self, line: &Line<'_, impl Print>) {
        let n = usize::from(line.step.byte).min(line.step.rest.len());
        let refusals = self.send(line.step.offset(), line.step.rest[..n].iter().copied());
        line.show_text(refusals);
    }

    // Free bytes from the line's byte on are written at the offset, as many as the line says, LONGEST at most.
    pub fn fill(&mut self, line: &Line<'_, impl Print>) {
        let n = line.step.times().min(LONGEST);
        let refusals = self.send(line.step.offset(), line.step.free_bytes(n));
        line.show_writes(".. ", n, refusals);
    }

    // What a read gives, the record not yet taken over.
    fn outcome_at(&self, offset: u16) -> ReadOutcome {
        let offset = u64::from(offset);
        tis::read(self.device, self.write_fifo, self.read_fifo, offset)
    }

    // A read gives the byte and the refusal number.
    pub fn read(&mut self, line: &Line<'_, impl Print>) {
        let o = self.outcome_at(line.step.offset());
        self.device = o.device;
        line.show_read(o.byte, o.refusal);
    }

    // The bytes read at the offset, one after the other, should be these.
    fn receive<I: Iterator<Item = u8> + Drop>(&mut self, offset: u16, expected: I) -> Received
        requires can { I.can_next expected }
        requires ends { IsFinite (I.remaining expected) }
    {
        let mut all = Received::default();
        for byte in expected {
            let o = self.outcome_at(offset);
            self.device = o.device;
            all.differences |= o.byte ^ byte;
            all.refusals |= number_of(o.refusal);
        }
        all
    }

    // Free bytes from the line's byte on are read at the offset, as many as the line says, LONGEST at most.
    pub fn drain(&mut self, line: &Line<'_, impl Print>) {
        let n = line.step.times().min(LONGEST);
        let all = self.receive(line.step.offset(), line.step.free_bytes(n));
        line.show_drain(n, all.differences, all.refusals);
    }

    // The engine answers the run of the offset's low byte; the refusal number expected is the high byte.
    fn answer(&mut self, line: &Line<'_, impl Print>, answer: &[u8]) {
        let run = u32::from(line.step.low);
        let o = tis::respond(self.device, self.write_fifo, self.read_fifo, run, answer);
        self.device = o.device;
        line.show_answer(o.refusal);
    }

    // The answer has as many bytes as the line's byte says, 20 at most.
    pub fn respond(&mut self, line: &Line<'_, impl Print>) {
        let answer = line.step.answer();
        let n = usize::from(line.step.byte).min(answer.len());
        self.answer(line, &answer[..n]);
    }

    // So too, with free bytes from the line's byte on, as many as the line says, LONGEST at most: in room of the method's own, since an answer
    // is a slice and there is no heap.
    pub fn respond_free(&mut self, line: &Line<'_, impl Print>) {
        let n = line.step.times().min(LONGEST);
        let mut room = [0; LONGEST];
        put_free_bytes(&mut room[..n], line.step.byte);
        self.answer(line, &room[..n]);
    }

    // The window has as many bytes as the offset says, with that digest; the refusal number expected is the line's byte.
    pub fn window(&self, line: &Line<'_, impl Print>) {
        let o = tis::window(self.device, self.write_fifo, self.read_fifo);
        line.show_window(o.bytes.len(), digest(o.bytes), o.refusal);
    }

    pub fn run(&self, line: &Line<'_, impl Print>) {
        line.show_run(self.device.control.run);
    }

    // The interrupt line, asserted where the line's byte is 1.
    pub fn interrupt_line(&self, line: &Line<'_, impl Print>) {
        line.show_interrupt_line(tis::interrupt_line(self.device));
    }

    // The PCR of the offset's low byte; the refusal number expected is the line's byte.
    pub fn pcr(&self, line: &Line<'_, impl Print>) {
        let o = tis::pcr_value(self.device, PcrIndex(line.step.low));
        line.show_pcr(sha1_text::hex(o.value), o.refusal);
    }
}

// `Step::free_bytes` as a slice, whose bytes that iterator gives one by one in almost twice the time.
fn put_free_bytes(room: &mut [u8], first: u8) {
    let mut byte = first % FREE;
    for to in room {
        *to = byte;
        byte = if byte < FREE - 1 { byte + 1 } else { 0 };
    }
}

// `hash` asks for a bound, which the contract of `window` does not give: no window is longer than the greatest C, and dashes would stand for one.
fn digest(part: &[u8]) -> [u8; 40] {
    if part.len() > usize::from(FIFO_GREATEST) {
        return [b'-'; 40];
    }
    sha1_text::hex(sha1_message::hash(part))
}

// May the locality of the offset's high byte reset the PCR of its low byte, and may it extend it.
pub fn permission(line: &Line<'_, impl Print>) {
    let reset = tis::may_reset(PcrIndex(line.step.low), Locality(line.step.high));
    let extend = tis::may_extend(PcrIndex(line.step.low), Locality(line.step.high));
    let refusal = number_of(reset.refusal) | number_of(extend.refusal);
    line.show_permission(reset.allowed, extend.allowed, refusal);
}

// A line with another letter is shown as not understood, and does nothing.
pub fn unknown(line: &Line<'_, impl Print>) {
    line.show_unknown();
}
