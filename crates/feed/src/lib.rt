// A log that arrives in fragments, which may end inside a record: a form keeps the machine and the bytes of the record that is not whole yet.
//
// New here. Document 02, request 7. The first record is put together from the pending bytes and the head of the fragment, and the records
// behind it are run where they lie, by the runner's loop. Each call asks once whether the machine is well-formed. A caller can rely on these: a
// fragment is taken whole or not at all, a refusal changes no lent byte, feeding may go on after it, and there is no limit on how much is fed.

#![tactic(auto)]

ghost use Rattle.std.specs.Prelude.{◌≡◌, ◌&&◌, ◌++◌, ◌+◌, ◌≤◌, leb, length};
ghost use Rattle.error.specs.Codes.{number_of};
ghost use Rattle.error.specs.Answer.{answer, says};
ghost use Rattle.runner.specs.Run.{on_ok};
ghost use Rattle.feed.specs.Feed.{
  begun,
  with_machine,
  fed_says,
  started,
  padded as Feed-padded,
  taken,
  code_fed,
  fed,
  fed_room,
  finished,
};

use error::Refusal;
use log_tests::{MAX_LOG_BYTES, MAX_PENDING};
use machine::Machine;
use record::RECORD_BYTES;

// How many places a form has for the bytes of a record that is not whole.
pub const PENDING_BYTES: usize = 11;

// A machine, and the first `count` bytes of a record that has not arrived whole. The count stands beside its places, since a form's bytes come
// from C with any count, and `feed` refuses one over 11 with EINVAL.
#[derive(Clone, Copy, Debug, PartialEq, Eq)]
pub struct Form {
    pub machine: Machine,
    pub pending: [u8; PENDING_BYTES],
    pub count: u32,
}

// What stands behind the pending bytes.
const NO_BYTE: u8 = 0;

// A form with nothing pending, on a machine.
#[tactic(auto, unfolding(crate::specs::Feed::started))]
pub fn start(m: Machine) -> Result<Form, Refusal>
    ensures { says (begun m) result ≡ started m }
{
    if !wellformed::well_formed(&m) {
        return Err(Refusal::Einval);
    }
    Ok(Form {
        machine: m,
        pending: [NO_BYTE; PENDING_BYTES],
        count: 0,
    })
}

// The first N bytes of the pending ones and a fragment behind them, zeros where there are no more.
#[tactic(auto, using(crate::proofs::Bytes::put))]
fn padded<const N: usize>(pending: &[u8], fragment: &[u8]) -> [u8; N]
    requires { length pending.now ≤ N }
    ensures { result ≡ Feed-padded N (pending.now ++ fragment.now) }
{
    let mut bytes = [NO_BYTE; N];
    let (front, behind) = bytes.split_at_mut(pending.len());
    front.copy_from_slice(pending);
    let size = behind.len().min(fragment.len());
    behind[..size].copy_from_slice(&fragment[..size]);
    bytes
}

// Whether a fragment of this size, which is not too long, completes a record.
fn completes(count: u32, size: usize) -> bool
    ensures { result ≡ leb count 11 && (leb size 24576 && leb 12 (count + size)) }
{
    count <= MAX_PENDING && size <= MAX_LOG_BYTES && RECORD_BYTES <= count as usize + size
}

// The records that a fragment completes are run on the form's machine. Where there is no record to run, the tests stand here; else the runner
// makes them.
fn run_arrived(f: &mut Form, fragment: &[u8], out: &mut [u8]) -> Result<(), Refusal>
    ensures code { number_of result ≡ code_fed f.old fragment.now (length out.old) }
    ensures form { f.new ≡ on_ok (number_of result) (with_machine f.old (taken f.old fragment.now).machine) f.old }
    ensures room { out.new ≡ fed_room f.old fragment.now out.old }
{
    let size = fragment.len();
    if !completes(f.count, size) {
        return log_tests::feed_code(
            wellformed::well_formed(&f.machine),
            f.count,
            size,
            out.len(),
        );
    }
    let count = f.count as usize;
    let first = padded(&f.pending[..count], fragment);
    let others = &fragment[RECORD_BYTES - count..];
    let whole = others.len() / RECORD_BYTES * RECORD_BYTES;
    runner::run_joined(&mut f.machine, first, &others[..whole], out)
}

// A fragment, its answers into lent room: how many records were run.
#[tactic(auto, using(crate::proofs::Codes::feed_refused, crate::proofs::Codes::few_bytes, crate::proofs::Codes::not_long))]
pub fn feed(f: &mut Form, fragment: &[u8], out: &mut [u8]) -> Result<u32, Refusal>
    ensures form { fed_says f.new result ≡ fed f.old fragment.now (length out.old) }
    ensures room { out.new ≡ fed_room f.old fragment.now out.old }
{
    if let Err(why) = run_arrived(f, fragment, out) {
        return Err(why);
    }
    let count = f.count as usize;
    let size = count + fragment.len();
    let records = size / RECORD_BYTES;
    let run = records * RECORD_BYTES;
    f.pending = padded(
        &f.pending[run.min(count)..count],
        &fragment[run.saturating_sub(count)..],
    );
    f.count = (size % RECORD_BYTES) as u32;
    Ok(records as u32)
}

// The end of a log: the records that were run stand, and nothing changes.
#[tactic(auto, unfolding(crate::specs::Feed::finished))]
pub fn finish(f: &Form) -> Result<(), Refusal>
    ensures { answer (number_of result) f.now ≡ finished f.now }
{
    if !wellformed::well_formed(&f.machine) || f.count > 0 {
        return Err(Refusal::Einval);
    }
    Ok(())
}
