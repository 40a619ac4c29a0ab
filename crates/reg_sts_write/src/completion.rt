// How Completion is entered: the one rule for the engine's answer and for the answer to a bad size.
ghost use Rattle.std.specs.Prelude.{◌≡◌};
ghost use Rattle.reg_sts_write.specs.Completion.{enter_completion};

use crate::Commanded;
use record::{Causes, Phase};
use reg_fifo::FifoAction;

// The answer to a command whose declared size is below 10 or above C: TPM_BAD_PARAM_SIZE.
pub const BAD_SIZE: [u8; 10] = [0x00, 0xc4, 0x00, 0x00, 0x00, 0x0a, 0x00, 0x00, 0x00, 0x19];

// With an answer of n bytes.
pub fn enter_completion(n: u16, run: u32) -> Commanded
    ensures { result ≡ enter_completion n run }
{
    Commanded {
        phase: Phase::Completion(n, 0),
        run,
        causes: Causes::DATA_AVAIL,
        fifos: FifoAction::Complete,
    }
}
