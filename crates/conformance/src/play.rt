// Plays the lines of the sheet: each is a call of the register front and a line that shows what it gave.
use conformance_calls::{Bench, permission, unknown};
use conformance_lines::line::Kind;
use conformance_lines::results::Line;
use record::limits::FIFO_LEAST;

// The one switch on a line's kind that acts: `Kind::from` is a table of the sheet's letters. A heading, or an empty line, does nothing.
fn take(bench: &mut Bench<'_>, line: &Line<'_, impl Print>) {
    match line.step.kind {
        Kind::PowerOn => bench.power_on(line),
        Kind::Reset => bench.reset(line),
        Kind::Write => bench.write(line),
        Kind::Text => bench.text(line),
        Kind::Fill => bench.fill(line),
        Kind::Read => bench.read(line),
        Kind::Drain => bench.drain(line),
        Kind::Respond => bench.respond(line),
        Kind::RespondFree => bench.respond_free(line),
        Kind::Window => bench.window(line),
        Kind::Run => bench.run(line),
        Kind::InterruptLine => bench.interrupt_line(line),
        Kind::Pcr => bench.pcr(line),
        Kind::Permission => permission(line),
        Kind::Heading => {}
        Kind::Unknown => unknown(line),
    }
}

// Before the first power-on line the record is a fresh one, with FIFOs of the least length. A power-on says how many bytes of each FIFO are
// lent from there on; all of one that has fewer.
pub fn play(rt: &impl Print, write_fifo: &mut [u8], read_fifo: &mut [u8], sheet: &[u8]) {
    let mut device = record::fresh_device(false, [0; 5], 0);
    let mut length = FIFO_LEAST;
    for text in sheet.split(|c| *c == b'\n') {
        let line = Line::parse(rt, text);
        // Asked before the match in `take`: a `Bench` has the lent slices, which must be cut to the length of a power-on line before its call.
        if line.step.kind == Kind::PowerOn {
            length = usize::from(line.step.offset());
        }
        let (n, m) = (length.min(write_fifo.len()), length.min(read_fifo.len()));
        let mut bench = Bench {
            device,
            write_fifo: &mut write_fifo[..n],
            read_fifo: &mut read_fifo[..m],
        };
        take(&mut bench, &line);
        device = bench.device;
    }
}
