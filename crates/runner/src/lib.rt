// One record on a machine, and a log of records: each record's family names cells, which are lent to their rule.
//
// New here. Document 01, "Log records". There is one loop, and a step is one record of it. The loop works on the machine where it stands, since
// passing a machine through a function costs more than a record does. A caller can rely on these: a refused step or run leaves the machine, and
// a refused run every byte.

#![tactic(auto)]

ghost use Rattle.std.specs.Prelude.{◌≡◌, true, ◌++◌, ◌+◌, ◌*◌, ◌/◌, ◌≤◌, length, map};
ghost use Rattle.error.specs.Codes.{number_of};
ghost use Rattle.error.specs.Answer.{answer};
ghost use Rattle.machine.specs.State.{setup_ok, has_cpu};
ghost use Rattle.rules.specs.Rules.{answered_says, given_back};
ghost use Rattle.operations.specs.Asked.{answered, next};
ghost use Rattle.operations.specs.Log.{record_at, state_at};
ghost use Rattle.runner.specs.Step.{step as Step-step};
ghost use Rattle.runner.specs.Run.{written_at, room_at, ran, ran_room};

use answers::ANSWER_BYTES;
use error::Refusal;
use machine::{CpuId, FREE_LOCK, LOCKS, Lock, Machine, Setup};
use record::{Operation, RECORD_BYTES};
use rules::Answered;

// Every lock whose word names the CPU is given back.
fn give_back(setup: Setup, c: CpuId, locks: &mut [Lock; LOCKS])
    ensures { locks.new ≡ map (given_back setup c.0) locks.old }
{
    for lock in locks.iter_mut() {
        if unwind_rules::names(setup, lock.word, c) {
            *lock = FREE_LOCK;
        }
    }
}

// What a record answers, and what it does to the machine. The machine's setup is handed over beside it: no record changes it, and what is asked of
// it is then asked once for a whole log.
fn answer_record(m: &mut Machine, setup: Setup, bytes: &[u8]) -> Answered
    requires good_setup { setup_ok setup ≡ true }
    requires same_setup { m.old.setup ≡ setup }
    ensures answer { answered_says result ≡ answered m.old bytes.now }
    ensures machine { m.new ≡ next m.old bytes.now }
{
    let request = record::request_of(setup, bytes);
    let c = request.cpu;
    let t = request.thread;
    let l = request.lock;
    match request.operation {
        Operation::Malformed => Answered::from(Err(Refusal::Einval)),
        Operation::OnCpu(asked) => {
            let cpu = &mut m.cpus[c.0 as usize];
            let thread = &mut m.threads[t.0 as usize];
            let code = cpu_rules::on_cpu(setup, asked, c, t, cpu, thread);
            Answered { code, value: 0 }
        }
        Operation::OnLock(asked) => {
            let cpu = &mut m.cpus[c.0 as usize];
            let lock = &mut m.locks[l.0 as usize];
            lock_rules::on_lock(setup, asked, c, cpu, lock)
        }
        Operation::OnThread(asked) => {
            let thread = &mut m.threads[t.0 as usize];
            thread_rules::on_thread(setup, asked, c, thread)
        }
        Operation::Ipi => {
            let mask = thread_rules::ipi(setup, c, m.cpus, m.threads[t.0 as usize]);
            Answered::from(mask)
        }
        Operation::Owner => Answered::from(Ok(lock_rules::owner(m.locks[l.0 as usize]))),
        Operation::Unwind => {
            match unwind_rules::unwind(setup, c, t, &mut m.cpus[c.0 as usize]) {
                Ok(held) => {
                    give_back(setup, c, &mut m.locks);
                    Answered::from(Ok(held))
                }
                Err(why) => Answered::from(Err(why)),
            }
        }
    }
}

// The answer to record k, written into the rest of the room from its place on.
fn put_answer_at(out: &mut [u8], k: usize, answer: Answered)
    requires { k * 8 ≤ length out.old }
    ensures { out.new ≡ written_at (k * 8) (answered_says answer) out.old }
{
    let to = k * ANSWER_BYTES;
    let _ = answers::put_answer(&mut out[to..], answer.code, answer.value);
}

// Every record of a log on a machine that has been found well-formed, with room for every answer.
fn run_records(m: &mut Machine, log: &[u8], out: &mut [u8])
    requires good_setup { setup_ok m.old.setup ≡ true }
    requires room_fits { length log.now / 12 * 8 ≤ length out.old }
    ensures machine { m.new ≡ state_at m.old log.now (length log.now / 12) }
    ensures room { out.new ≡ room_at m.old log.now out.old (length log.now / 12) }
{
    let setup = m.setup;
    for k in 0..log.len() / RECORD_BYTES {
        let at = k * RECORD_BYTES;
        let answer = answer_record(m, setup, &log[at..at + RECORD_BYTES]);
        put_answer_at(out, k, answer);
    }
}

// One record on any machine.
pub fn step(m: &mut Machine, bytes: &[u8]) -> Answered
    ensures { (answered_says result, m.new) ≡ Step-step m.old bytes.now }
{
    if !wellformed::well_formed(m) || bytes.len() != RECORD_BYTES {
        return Answered::from(Err(Refusal::Einval));
    }
    answer_record(m, m.setup, bytes)
}

// A log on any machine, its answers into lent room.
pub fn run(m: &mut Machine, log: &[u8], out: &mut [u8]) -> Result<(), Refusal>
    ensures machine { answer (number_of result) m.new ≡ ran m.old log.now (length out.old) }
    ensures room { out.new ≡ ran_room m.old log.now out.old }
{
    log_tests::run_code(wellformed::well_formed(m), log.len(), out.len())?;
    run_records(m, log, out);
    Ok(())
}

// A log whose first record is lent apart from the others, which stand behind it: what `run` says of the two as one log.
pub fn run_joined(
    m: &mut Machine,
    first: [u8; RECORD_BYTES],
    others: &[u8],
    out: &mut [u8],
) -> Result<(), Refusal>
    ensures machine { answer (number_of result) m.new ≡ ran m.old (first ++ others.now) (length out.old) }
    ensures room { out.new ≡ ran_room m.old (first ++ others.now) out.old }
{
    let size = RECORD_BYTES + others.len();
    log_tests::run_code(wellformed::well_formed(m), size, out.len())?;
    run_records(m, &first, out);
    run_records(m, others, &mut out[ANSWER_BYTES..]);
    Ok(())
}
