// The record of an image.
use arbiter::{Arbiter, Locality};
use pcr::{PCRS, Pcr};
use record::{Causes, Control, Device, Interrupts, Launch, Phase};
use replay_form::fields::Fields;
use sha1_message::Stream;
use std::array;

fn causes(image: &mut Fields<'_>) -> Causes {
    Causes {
        command_ready: image.flag(),
        locality_change: image.flag(),
        data_avail: image.flag(),
    }
}

fn interrupts(image: &mut Fields<'_>) -> Interrupts {
    Interrupts {
        global: image.flag(),
        enable: causes(image),
        status: causes(image),
    }
}

// The numbers are the image's (docs/REPLAY.md); `encode` has them the other way round.
fn phase(image: &mut Fields<'_>) -> Phase {
    match (image.byte(), image.u16(), image.u16()) {
        (0, _, _) => Phase::Idle,
        (1, _, _) => Phase::Ready,
        (2, n, _) => Phase::Reception(n),
        (3, n, _) => Phase::Execution(n),
        (_, n, k) => Phase::Completion(n, k),
    }
}

fn stream(image: &mut Fields<'_>) -> Stream {
    Stream {
        h: array::from_fn(|_| image.u32()),
        tail: image.take(),
        count: image.u32(),
    }
}

fn bank(image: &mut Fields<'_>) -> [Pcr; PCRS] {
    array::from_fn(|_| Pcr {
        bytes: image.take(),
    })
}

pub fn device_from(image: &mut Fields<'_>) -> Device {
    let held = image.flag();
    let waiting = image.flags();
    let seized = image.flags();
    let interrupts = interrupts(image);
    let established = image.flag();
    let sequence = image.flag();
    let active = held.then_some(Locality(image.byte()));
    let phase = phase(image);
    let identity = image.take();
    let control = Control {
        arbiter: Arbiter {
            active,
            waiting,
            seized,
        },
        interrupts,
        established,
        run: image.u32(),
    };
    let stream = stream(image);
    Device {
        control,
        phase,
        identity,
        launch: Launch { sequence, stream },
        pcrs: bank(image),
    }
}
