// A log on the machine that a setup byte asks for, its answers into lent room.
//
// New here. Document 01, "What must change shape": the runner from setup byte and lent bytes. A caller can rely on these: the setup byte is
// judged first, and a refusal changes no lent byte.

#![tactic(auto)]

ghost use Rattle.std.specs.Prelude.{◌≡◌, length};
ghost use Rattle.error.specs.Codes.{number_of};
ghost use Rattle.setup_run.specs.Run.{code_from_setup, room_from_setup};

use error::Refusal;

// The answers of a log over the front of the room, and the code. By `?` the machine would be copied twice more, which is 8 KB of stack.
pub fn run_from_setup(setup: u8, log: &[u8], out: &mut [u8]) -> Result<(), Refusal>
    ensures code { number_of result ≡ code_from_setup setup log.now (length out.old) }
    ensures room { out.new ≡ room_from_setup setup log.now out.old }
{
    match machine::from_setup_byte(setup) {
        Ok(mut machine) => runner::run(&mut machine, log, out),
        Err(why) => Err(why),
    }
}
