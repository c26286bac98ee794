// What a runner asks before it runs a log: a well-formed machine, a log that is not too long and has whole records, room for every answer. And
// what is asked before a fragment of a log is taken, which may end inside a record.
//
// New here: upstream has no log. Document 01, "Log records", "Runner"; document 02, request 7. It stands apart from the runner, so that these
// tests are made and proved without the loop.

#![tactic(auto)]

ghost use Rattle.std.specs.Prelude.{◌≡◌};
ghost use Rattle.error.specs.Codes.{number_of};
ghost use Rattle.log_tests.specs.RunCode.{run_code};
ghost use Rattle.log_tests.specs.FeedCode.{feed_code};

use answers::ANSWER_BYTES;
use error::Refusal;
use record::RECORD_BYTES;

// The longest log, 2,048 records.
pub const MAX_LOG_BYTES: usize = 24576;

// The most bytes of a record that is not whole.
pub const MAX_PENDING: u32 = 11;

// The code of a run: of a machine that is well-formed or not, a log of this size and room of this size.
#[tactic(auto, unfolding(crate::specs::RunCode::run_code))]
pub fn run_code(formed: bool, size: usize, room: usize) -> Result<(), Refusal>
    ensures { number_of result ≡ run_code formed size room }
{
    if !formed {
        return Err(Refusal::Einval);
    }
    if size > MAX_LOG_BYTES {
        return Err(Refusal::Eoverflow);
    }
    if size % RECORD_BYTES != 0 {
        return Err(Refusal::Einval);
    }
    if room < size / RECORD_BYTES * ANSWER_BYTES {
        return Err(Refusal::Enomem);
    }
    Ok(())
}

// The code of a feed: of a machine that is well-formed or not, with so many bytes pending, a fragment of this size and room of this size.
#[tactic(auto, unfolding(crate::specs::FeedCode::feed_code))]
pub fn feed_code(formed: bool, pending: u32, size: usize, room: usize) -> Result<(), Refusal>
    ensures { number_of result ≡ feed_code formed pending size room }
{
    if !formed || pending > MAX_PENDING {
        return Err(Refusal::Einval);
    }
    if size > MAX_LOG_BYTES {
        return Err(Refusal::Eoverflow);
    }
    let records = (pending as usize + size) / RECORD_BYTES;
    if room < records * ANSWER_BYTES {
        return Err(Refusal::Enomem);
    }
    Ok(())
}
