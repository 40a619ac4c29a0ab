// The register front for callers that are not Rattle: plays cycles from a slice, as often as asked. What the benchmark links.
#![tactic(auto)]

use record::Device;
use refusal::number_of;

// What is left after playing the script, and the sum of the bytes and refusal numbers so far, which shows that nothing was skipped.
#[derive(Clone, Copy)]
struct Turn {
    device: Device,
    sum: u64,
}

// Four bytes each, as the benchmark writes them: 0 reads, 1 writes, anything else answers; the offset, high byte first; the byte written. The calls
// stand in the loop, since a function between would copy the record once more.
fn once(turn: Turn, w: &mut [u8], r: &mut [u8], script: &[u8], answer: &[u8]) -> Turn {
    let Turn {
        mut device,
        mut sum,
    } = turn;
    let (cycles, _) = script.as_chunks::<4>();
    for [kind, high, low, byte] in cycles {
        let offset = u64::from(u16::from_be_bytes([*high, *low]));
        let shown = match kind {
            0 => {
                let o = tis::read(device, w, r, offset);
                device = o.device;
                o.byte
            }
            1 => {
                let o = tis::write(device, w, r, offset, *byte);
                device = o.device;
                number_of(o.refusal)
            }
            _ => {
                let o = tis::respond(device, w, r, device.control.run, answer);
                device = o.device;
                number_of(o.refusal)
            }
        };
        sum = sum.wrapping_add(u64::from(shown));
    }
    Turn { device, sum }
}

// Plays the script so many times from a power-on with the FIFOs lent. Answers the sum.
#[unsafe(no_mangle)]
pub extern "C" fn tis_play(
    script: &[u8],
    answer: &[u8],
    w: &mut [u8],
    r: &mut [u8],
    times: u64,
) -> u64 {
    let o = tis::power_on(false, [0; 5], w, r);
    let mut turn = Turn {
        device: o.device,
        sum: 0,
    };
    for _ in 0..times {
        turn = once(turn, w, r, script, answer);
    }
    turn.sum
}
