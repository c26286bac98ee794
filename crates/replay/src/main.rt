// Replays a controller's log: a setup byte and a log on standard input, the answers on standard output.
//
// The work is in the proved crate program. The input is read into a fixed room, one byte longer than the longest input, so that a longer one
// shows; no more of it is read. A read that fails counts as the end of the input.

#![tactic(auto)]

use std::io;
use std::io::Write;

// Room for the longest input and one byte more.
const INPUT_ROOM: usize = program::MAX_INPUT_BYTES + 1;

fn main(rt: HostRuntime) -> io::Result<()> {
    let mut input = [0u8; INPUT_ROOM];
    let size = reading::fill(&mut rt.stdin(), &mut input).unwrap_or_else(|failed| failed.size);
    let mut out = [0u8; program::MAX_ANSWER_BYTES];
    let answered = program::respond(reading::front_of(&input, size), &mut out).unwrap_or(0);
    // By the trait's name, since the `write_all` of a stdout itself, which prints, gives up after so many interrupted writes.
    Write::write_all(&mut rt.stdout(), reading::front_of(&out, answered))
}
