// What the program `replay` does with its input: a setup byte and a log become answers.
//
// New here. Document 01, "Log records", the last paragraph. A caller can rely on these: the setup byte is judged first, a refused input gets one
// answer, and an empty log gets none. Too little room for that one answer is ENOMEM.

#![tactic(auto)]

ghost use Rattle.std.specs.Prelude.{◌≡◌, length};
ghost use Rattle.program.specs.Program.{refusal_size, refusal_room, respond_size, respond_room};
ghost use Rattle.error.specs.Codes.{refusal_number};
ghost use Rattle.error.specs.Answer.{says};

use answers::ANSWER_BYTES;
use error::Refusal;
use record::RECORD_BYTES;

// The longest input: a setup byte and the longest log.
pub const MAX_INPUT_BYTES: usize = 24577;

// Room for every answer of the longest log.
pub const MAX_ANSWER_BYTES: usize = 16384;

// One answer, for an input that is refused, and how many bytes it has.
fn refuse(out: &mut [u8], why: Refusal) -> Result<usize, Refusal>
    ensures size { says 0 result ≡ refusal_size (length out.old) }
    ensures room { out.new ≡ refusal_room (refusal_number why) out.old }
{
    answers::put_answer(out, Err(why), 0)?;
    Ok(ANSWER_BYTES)
}

// Writes the answers to an input over the front of the room, and says how many bytes they have; or refuses for want of room.
pub fn respond(input: &[u8], out: &mut [u8]) -> Result<usize, Refusal>
    ensures size { says 0 result ≡ respond_size input.now (length out.old) }
    ensures room { out.new ≡ respond_room input.now out.old }
{
    let Some((setup, log)) = input.split_first() else {
        return refuse(out, Refusal::Einval);
    };
    match setup_run::run_from_setup(*setup, log, out) {
        Ok(()) => Ok(log.len() / RECORD_BYTES * ANSWER_BYTES),
        Err(why) => refuse(out, why),
    }
}
