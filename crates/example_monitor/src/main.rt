// A monitor in small: it powers the device on, passes on the bus cycles of a guest's driver, lets an engine of its own answer the command
// that comes, and prints each of these. What a monitor does with the front is in `monitor.rt`; the guest and the engine are made up.
#![tactic(auto)]

mod engine;
mod guest;
mod monitor;
mod print;

use guest::Guest;
use monitor::Monitor;

// C, the bytes of each FIFO: any number from 1,024 to 8,192.
const FIFO_BYTES: usize = 1024;

fn main(rt: HostRuntime) {
    print::line(&rt, "The monitor powers the device on.");
    let mut monitor = Monitor::power_on(&rt);
    let mut guest = Guest::new(&rt, &mut monitor);
    print::line(
        &rt,
        "The guest asks for the device in locality 0, and has it: ACCESS reads a1.",
    );
    guest.acquire();
    print::line(
        &rt,
        "It writes commandReady, then a command of ten bytes, then tpmGo.",
    );
    guest.ready();
    guest.send();
    guest.go();
    print::line(
        &rt,
        "The engine has work: the command is in the window, and its answer goes back.",
    );
    monitor.serve(&rt);
    let mut guest = Guest::new(&rt, &mut monitor);
    print::line(
        &rt,
        "The guest sees dataAvail in STS, reads the answer and gives the device up.",
    );
    guest.answer();
    guest.release();
    print::line(&rt, "An answer that comes too late is refused.");
    monitor.late_answer(&rt);
}
