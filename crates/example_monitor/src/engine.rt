// The engine, made up: it knows TPM_ContinueSelfTest and answers every other command with TPM_BAD_ORDINAL. The front executes no command.
const CONTINUE_SELF_TEST: &[u8] = &[0x00, 0x00, 0x00, 0x53];

const SUCCESS: u8 = 0x00;

const BAD_ORDINAL: u8 = 0x0a;

// The ordinal stands behind tag and size; a command that runs has ten bytes at least.
fn asks_self_test(command: &[u8]) -> bool {
    command.get(6..10) == Some(CONTINUE_SELF_TEST)
}

// Tag, size and return code.
pub fn answer(command: &[u8]) -> [u8; 10] {
    let code = if asks_self_test(command) {
        SUCCESS
    } else {
        BAD_ORDINAL
    };
    [0x00, 0xc4, 0x00, 0x00, 0x00, 0x0a, 0x00, 0x00, 0x00, code]
}
