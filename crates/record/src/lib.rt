// The device record (document 01, 'What the device record carries'), its limits and its fresh value.
#![tactic(auto)]

ghost use Rattle.std.specs.Prelude.{◌≡◌};
ghost use Rattle.record.specs.Record.{fresh_control, closed_launch, fresh_device, hash_progress};
ghost use Rattle.record.specs.Causes.{without, either, share};

use arbiter::Arbiter;
use pcr::{PCRS, Pcr};
use sha1_message::Stream;

pub mod limits;

// The phase, with its counts: bytes received; bytes received; answer length and bytes read.
#[derive(Clone, Copy, PartialEq, Eq, Debug)]
pub enum Phase {
    Idle,
    Ready,
    Reception(u16),
    Execution(u16),
    Completion(u16, u16),
}

// One flag for each interrupt. Methods with names and no operators: `&` and `|` of such sets would have to be looked up.
#[derive(Clone, Copy, PartialEq, Eq, Debug)]
pub struct Causes {
    pub command_ready: bool,
    pub locality_change: bool,
    pub data_avail: bool,
}

impl Causes {
    pub const NONE: Causes = Causes {
        command_ready: false,
        locality_change: false,
        data_avail: false,
    };

    pub const COMMAND_READY: Causes = Causes {
        command_ready: true,
        ..Causes::NONE
    };

    pub const DATA_AVAIL: Causes = Causes {
        data_avail: true,
        ..Causes::NONE
    };

    // Those that `other` does not have.
    pub fn without(self, other: Causes) -> Causes
        ensures { result ≡ without self other }
    {
        Causes {
            command_ready: self.command_ready & !other.command_ready,
            locality_change: self.locality_change & !other.locality_change,
            data_avail: self.data_avail & !other.data_avail,
        }
    }

    // Those of both together.
    pub fn either(self, other: Causes) -> Causes
        ensures { result ≡ either self other }
    {
        Causes {
            command_ready: self.command_ready | other.command_ready,
            locality_change: self.locality_change | other.locality_change,
            data_avail: self.data_avail | other.data_avail,
        }
    }

    // Is there one that both have.
    pub fn share(self, other: Causes) -> bool
        ensures { result ≡ share self other }
    {
        self.command_ready & other.command_ready
            | self.locality_change & other.locality_change
            | self.data_avail & other.data_avail
    }
}

// INT_ENABLE's globalIntEnable and its three causes, and INT_STATUS.
#[derive(Clone, Copy, PartialEq, Eq, Debug)]
pub struct Interrupts {
    pub global: bool,
    pub enable: Causes,
    pub status: Causes,
}

// What an ordinary cycle may change besides the phase; small, so that no PCR is copied on its way.
#[derive(Clone, Copy, PartialEq, Eq, Debug)]
pub struct Control {
    pub arbiter: Arbiter,
    pub interrupts: Interrupts,
    pub established: bool,
    pub run: u32,
}

// The hash sequence: whether one is open, and its stream, which is `nothing` while none is.
// No Option of a stream: a lent record may count bytes with the sequence closed, which is refused as 6 (`record_shape::hash_fits`).
#[derive(Clone, Copy, PartialEq, Eq, Debug)]
pub struct Launch {
    pub sequence: bool,
    pub stream: Stream,
}

// What of the hash sequence is asked before a call, no word and no byte of the stream. A flag beside a count for the reason given at `Launch`.
#[derive(Clone, Copy, PartialEq, Eq, Debug)]
pub struct HashProgress {
    pub sequence: bool,
    pub count: u32,
}

#[derive(Clone, Copy, PartialEq, Eq, Debug)]
pub struct Device {
    pub control: Control,
    pub phase: Phase,
    pub identity: [u8; 5],
    pub launch: Launch,
    pub pcrs: [Pcr; PCRS],
}

fn fresh_control(established: bool, run: u32) -> Control
    ensures { result ≡ fresh_control established run }
{
    Control {
        arbiter: arbiter::fresh_arbiter(),
        interrupts: Interrupts {
            global: false,
            enable: Causes::NONE,
            status: Causes::NONE,
        },
        established,
        run,
    }
}

pub fn closed_launch() -> Launch
    ensures { result ≡ closed_launch }
{
    Launch {
        sequence: false,
        stream: Stream::nothing(),
    }
}

pub fn hash_progress(launch: Launch) -> HashProgress
    ensures { result ≡ hash_progress launch }
{
    HashProgress {
        sequence: launch.sequence,
        count: launch.stream.count,
    }
}

// At power-on, with run number 0, and at a reset: what it keeps goes in.
#[tactic(auto, unfolding(crate::specs::Record::fresh_device))]
pub fn fresh_device(established: bool, identity: [u8; 5], run: u32) -> Device
    ensures { result ≡ fresh_device established identity run }
{
    Device {
        control: fresh_control(established, run),
        phase: Phase::Idle,
        identity,
        launch: closed_launch(),
        pcrs: pcr::bank::fresh(),
    }
}
