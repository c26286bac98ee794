// A check of the answers that somebody claims for a log: a controller in the field, of its own.
//
// New here. Document 02, request 8. One block of records after the other is run and compared, in room that serves every block, so that a long log
// needs no more than a short one. A caller can rely on these: what the program refuses is told before the claim is looked at, and a claim is right
// only if every byte of it is; else no record below the one that is named has a wrong answer.

#![tactic(auto)]

ghost use Rattle.std.specs.Prelude.{◌≡◌, true, ◌*◌, ◌/◌, ◌≤◌, ◌<◌, length, MatchOption};
ghost use Rattle.error.specs.Codes.{number_of};
ghost use Rattle.wellformed.specs.WellFormed.{well_formed};
ghost use Rattle.log_tests.specs.RunCode.{run_code};
ghost use Rattle.claims.specs.Claims.{
  verdict_says,
  lowest,
  differing,
  lowest_wrong,
  claim_tested,
  judged,
  judged_input,
};

use answers::ANSWER_BYTES;
use error::Refusal;
use machine::Machine;
use record::RECORD_BYTES;

// The records of a block, of which the longest log has two, and the room for their answers.
const BLOCK_RECORDS: usize = 1024;

const BLOCK_BYTES: usize = BLOCK_RECORDS * ANSWER_BYTES;

// The lowest record whose claimed answer is not the right one, if there is one.
fn lowest_differing(claimed: &[u8], right: &[u8]) -> Option<usize>
    requires { length claimed.now ≤ length right.now }
    ensures { let records = length claimed.now / 8 in
        let found = lowest (differing claimed.now right.now) records in
        MatchOption result (found ≡ records) (λ k. (k ≡ found) × (k < records)) }
{
    // All bytes at once are compared faster than one answer after the other, and most often none differs.
    if right.starts_with(claimed) {
        return None;
    }
    let (claimed, _) = claimed.as_chunks::<ANSWER_BYTES>();
    let (right, _) = right.as_chunks::<ANSWER_BYTES>();
    claimed
        .iter()
        .zip(right)
        .position(|(claimed, right)| claimed != right)
}

// The lowest record of a log whose claimed answer is wrong, if there is one.
fn lowest_wrong(mut m: Machine, log: &[u8], claim: &[u8]) -> Option<u32>
    requires formed { well_formed m ≡ true }
    requires short_log { length log.now ≤ 24576 }
    requires claim_fits { length claim.now ≡ length log.now / 12 * 8 }
    ensures { let records = length log.now / 12 in
        let found = lowest_wrong m log.now claim.now in
        MatchOption result (found ≡ records) (λ k. (k ≡ found) × (k < records)) }
{
    let blocks = log
        .chunks(BLOCK_RECORDS * RECORD_BYTES)
        .zip(claim.chunks(BLOCK_BYTES));
    for (block, (records, claimed)) in blocks.enumerate() {
        let mut room = [0; BLOCK_BYTES];
        // As many whole records as there are answers to compare.
        let whole = claimed.len() / ANSWER_BYTES * RECORD_BYTES;
        let _ = runner::run(&mut m, &records[..whole], &mut room);
        if let Some(k) = lowest_differing(claimed, &room) {
            return Some((block * BLOCK_RECORDS + k) as u32);
        }
    }
    None
}

// The code of a log of this size and a claim of this size: what the runner refuses, and then a claim with another number of answers.
fn size_code(size: usize, claimed: usize) -> Result<(), Refusal>
    ensures { number_of result ≡ claim_tested (run_code true size (size / 12 * 8)) size claimed }
{
    let answers = size / RECORD_BYTES * ANSWER_BYTES;
    log_tests::run_code(true, size, answers)?;
    if claimed == answers {
        Ok(())
    } else {
        Err(Refusal::Einval)
    }
}

// A claim to a log on the machine that a setup byte asks for: the lowest record whose answer differs, if there is one. A refusal keeps the claim
// from being judged. By `?` the machine would be copied once more, for a refusal too.
pub fn check(setup: u8, log: &[u8], claim: &[u8]) -> Result<Option<u32>, Refusal>
    ensures { verdict_says result ≡ judged setup log.now claim.now }
{
    let machine = match machine::from_setup_byte(setup) {
        Ok(machine) => machine,
        Err(why) => return Err(why),
    };
    size_code(log.len(), claim.len())?;
    Ok(lowest_wrong(machine, log, claim))
}

// A claim to an input of the program: a setup byte, or none, and the log behind it.
pub fn check_input(input: &[u8], claim: &[u8]) -> Result<Option<u32>, Refusal>
    ensures { verdict_says result ≡ judged_input input.now claim.now }
{
    let Some((setup, log)) = input.split_first() else {
        return Err(Refusal::Einval);
    };
    check(*setup, log, claim)
}
