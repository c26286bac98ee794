// Answers as bytes: a code in two's complement, then a value, each of four bytes, high byte first.
//
// New here: upstream has no log. Document 01, "Log records". A caller can rely on these: an answer is written whole or not at all, the code that
// comes back says which, bytes past the answer stay, and code and value come back from the bytes (proofs/Laws.antt).

#![tactic(auto)]

ghost use Rattle.std.specs.Prelude.{◌≡◌, ◌+◌, ◌*◌, ◌^◌, length};
ghost use Rattle.error.specs.Codes.{number_of};
ghost use Rattle.words.specs.Signed.{from_signed};
ghost use Rattle.answers.specs.Answer.{answer_bytes, written, put_code};

use error::Refusal;

// How many bytes an answer has.
pub const ANSWER_BYTES: usize = 8;

// An answer with a code and the greatest value, its eight bytes as one number.
#[tactic(auto, unfolding(words::specs::Signed::from_signed))]
fn greatest(answer: Result<(), Refusal>) -> u64
    ensures { result ≡ from_signed 31 (number_of answer) * 2 ^ 32 + 0xffff_ffff }
{
    match answer {
        Ok(()) => 0x0000_0000_ffff_ffff,
        Err(Refusal::Eperm) => 0xffff_ffff_ffff_ffff,
        Err(Refusal::Enomem) => 0xffff_fff4_ffff_ffff,
        Err(Refusal::Ebusy) => 0xffff_fff0_ffff_ffff,
        Err(Refusal::Einval) => 0xffff_ffea_ffff_ffff,
        Err(Refusal::Edeadlk) => 0xffff_ffd3_ffff_ffff,
        Err(Refusal::Ealready) => 0xffff_ff8e_ffff_ffff,
        Err(Refusal::Eoverflow) => 0xffff_ff75_ffff_ffff,
    }
}

// An answer over the front of `out`, as one number: from the greatest answer with its code that is taken off by which the value falls short. So the
// compiler does not tell code and value apart, and stores them at once (docs/PERFORMANCE.md). The greatest answer is found before the room is tested:
// after the test the compiler would go its own way for each code.
#[tactic(auto, unfolding(crate::specs::Answer::put_code, crate::specs::Answer::written, crate::specs::Answer::answer_bytes))]
pub fn put_answer(out: &mut [u8], answer: Result<(), Refusal>, value: u32) -> Result<(), Refusal>
    ensures code { number_of result ≡ put_code (length out.old) }
    ensures room { out.new ≡ written (answer_bytes (number_of answer) value) out.old }
{
    let most = greatest(answer);
    if out.len() < ANSWER_BYTES {
        return Err(Refusal::Enomem);
    }
    let short = (u32::MAX - value) as u64;
    high_first::put(out, 0, ANSWER_BYTES, most - short);
    Ok(())
}
