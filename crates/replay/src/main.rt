// Plays a list of calls from standard input through the public calls and writes each outcome; docs/REPLAY.md has the form.
#![tactic(auto)]

use replay_form::fault::Fault;
use replay_form::input::Input;
use replay_form::output::Output;
use replay_record::State;
use replay_state::play;

// The next call and its outcome, if there is one.
fn turn(input: &mut Input, output: &mut Output, state: &mut State) -> Result<bool, Fault> {
    input.refill();
    output.make_room()?;
    let Some(call) = input.next_call()? else {
        return Ok(false);
    };
    let size = call.arguments.len();
    play(state, call, output);
    input.advance(size);
    Ok(true)
}

// Every call, up to the end of the list or a fault: the number of the turn that it came to, from 1, and the fault. A proved loop has to end,
// and nothing says that the input does: the turns have numbers that no run uses up.
fn play_all(input: &mut Input, output: &mut Output, state: &mut State) -> (u64, Result<(), Fault>) {
    for number in 1..u64::MAX {
        match turn(input, output, state) {
            Ok(true) => {}
            Ok(false) => return (number, Ok(())),
            Err(fault) => return (number, Err(fault)),
        }
    }
    (u64::MAX, Ok(()))
}

// What is left is written, and a fault named with the number of its call.
fn main(rt: HostRuntime) {
    let mut input = Input::new(rt.stdin());
    let mut output = Output::new();
    let mut state = State::new();
    let (number, played) = play_all(&mut input, &mut output, &mut state);
    if let Err(fault) = output.flush().and(played) {
        let _ = eprintln!(rt; "replay: call {number}: {fault}");
    }
}
