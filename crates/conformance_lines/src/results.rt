// What came of each kind of line, beside what it expects. A line's name and the rest of it may be any bytes: they are written as they are.
// The refusals of several calls are numbers, put together bit by bit in one byte, as the sheet has them.
use crate::line::Step;
use crate::show::{Pair, verdict};
use refusal::{Refusal, number_of};
use std::fmt::Display;

// A line of the sheet that is being played, and where what it gives is shown.
#[derive(Drop)]
pub struct Line<'a, R: Print> {
    rt: &'a R,
    pub step: Step,
}

impl<'a, R: Print> Line<'a, R> {
    pub fn parse(rt: &'a R, text: &[u8]) -> Line<'a, R> {
        Line {
            rt,
            step: Step::parse(text),
        }
    }

    // The entry, and what came. What cannot be written is left out, and no more of the line than that: the sheet is played on.
    fn show(&self, text: impl Display + Drop) {
        let _ = self.rt.write_all(&self.step.label);
        let _ = self.rt.println(text);
    }

    // One comparison; `also` says whether all else is as expected.
    fn compare(&self, what: impl Display + Drop, pair: Pair, also: bool) {
        let verdict = verdict(also && pair.same());
        self.show(format_args!("{what}{pair}{verdict}"));
    }

    // Two comparisons, of a byte and of refusal numbers.
    fn compare_both(&self, what: impl Display + Drop, value: Pair, refusal: &str, number: Pair) {
        let what = format_args!("{what}{value}  {refusal}");
        self.compare(what, number, value.same());
    }

    // Two comparisons, of the line's byte as refusal number and of the text behind it.
    fn compare_texts(
        &self,
        what: impl Display + Drop,
        refusal: Option<Refusal>,
        got: [u8; 40],
        also: bool,
    ) {
        let number = Pair::new(self.step.byte, number_of(refusal));
        let _ = self.rt.write_all(&self.step.label);
        let _ = print!(self.rt; "{what}    refusal   {number}  expected ");
        let _ = self.rt.write_all(&self.step.rest);
        let _ = self.rt.print("  got ");
        let _ = self.rt.write_all(&got);
        let _ = self
            .rt
            .println(verdict(also && number.same() && got == self.step.rest));
    }

    pub fn show_reset(&self, refusal: Option<Refusal>) {
        let what = "reset                         refusal   ";
        self.compare(what, Pair::new(self.step.byte, number_of(refusal)), true);
    }

    // A power-on with FIFOs of so many bytes.
    pub fn show_power_on(&self, length: usize, refusal: Option<Refusal>) {
        let what = format_args!("power-on, C = {length:06x}h         refusal   ");
        self.compare(what, Pair::new(self.step.byte, number_of(refusal)), true);
    }

    // n writes from the line's byte on; `how` says whether of that byte or of those after it too.
    pub fn show_writes(&self, how: &str, n: usize, refusals: u8) {
        let (offset, first) = (self.step.offset(), self.step.byte);
        let what = format_args!("write to {offset:04x}, {first:02x}{how}{n:06x}    refusals  ");
        self.compare(what, Pair::new(self.step.refusals(), refusals), true);
    }

    pub fn show_text(&self, refusals: u8) {
        let offset = self.step.offset();
        let what = format_args!("text to {offset:04x}                  refusals  ");
        self.compare(what, Pair::new(0, refusals), true);
    }

    // The refusal number expected is behind the line's byte.
    pub fn show_read(&self, got: u8, refusal: Option<Refusal>) {
        let offset = self.step.offset();
        let what = format_args!("read {offset:04x}                     byte      ");
        let number = Pair::new(self.step.refusal(), number_of(refusal));
        self.compare_both(what, Pair::new(self.step.byte, got), "refusal", number);
    }

    // n reads that should give the line's byte and those after it: the bits in which any of them differs, and of all their refusal numbers.
    pub fn show_drain(&self, n: usize, differences: u8, refusals: u8) {
        let (offset, first) = (self.step.offset(), self.step.byte);
        let what = format_args!("read {offset:04x}, {first:02x}.. {n:06x}        differ    ");
        let numbers = Pair::new(self.step.refusals(), refusals);
        self.compare_both(what, Pair::new(0, differences), "refusals", numbers);
    }

    // The two answers are the bits of a byte; the refusal number expected is behind the line's byte.
    pub fn show_permission(&self, reset: bool, extend: bool, refusal: u8) {
        let offset = self.step.offset();
        let what = format_args!("permission {offset:04x}               byte      ");
        let got = u8::from(reset) << 1 | u8::from(extend);
        let number = Pair::new(self.step.refusal(), refusal);
        self.compare_both(what, Pair::new(self.step.byte, got), "refusal", number);
    }

    pub fn show_answer(&self, refusal: Option<Refusal>) {
        let run = self.step.low;
        let what = format_args!("respond to run {run:02x}             refusal   ");
        self.compare(what, Pair::new(self.step.high, number_of(refusal)), true);
    }

    // The window's length and the digest of its bytes.
    pub fn show_window(&self, length: usize, got: [u8; 40], refusal: Option<Refusal>) {
        let offset = self.step.offset();
        let what = format_args!("window of {offset:04x}, got {length:06x}");
        self.compare_texts(what, refusal, got, length == usize::from(offset));
    }

    pub fn show_run(&self, run: u32) {
        let what = "                              run number";
        let [low, ..] = run.to_le_bytes();
        let expected = self.step.byte;
        self.compare(what, Pair::new(expected, low), run == u32::from(expected));
    }

    pub fn show_interrupt_line(&self, asserted: bool) {
        let what = "interrupt line                asserted  ";
        self.compare(what, Pair::new(self.step.byte, u8::from(asserted)), true);
    }

    pub fn show_pcr(&self, got: [u8; 40], refusal: Option<Refusal>) {
        let offset = self.step.offset();
        let what = format_args!("PCR {offset:04x}                  ");
        self.compare_texts(what, refusal, got, true);
    }

    pub fn show_unknown(&self) {
        self.show("is not understood");
    }
}
