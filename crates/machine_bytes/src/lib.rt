// A machine as bytes: it is read from lent bytes and written over the front of lent room, numbers high byte first.
//
// New here: upstream has no machine. Its 2,950 bytes are the setup, 6 bytes (n 4, pin-only 1, wide 1), 16 CPUs of 14 (active 1, current 1 and 4,
// priority 4, hold 4), 32 threads of 13 (mask 4, priority 4, place 1 and 4) and 128 locks of 18 (owner 1 and 4, depth 4, irq flag 1, word 8). A
// caller can rely on these: bytes that are long enough always read as a machine, a machine is written whole or not at all, bytes past it stay,
// and what was written is read back.

#![tactic(auto)]

ghost use Rattle.std.specs.Prelude.{◌≡◌, List, ◌++◌, ℕ, ◌+◌, ◌*◌, ◌≤◌, length, drop};
ghost use Rattle.std.proofs.lemmas.List.Edits.{sets};
ghost use Rattle.error.specs.Codes.{number_of};
ghost use Rattle.error.specs.Answer.{says};
ghost use Rattle.high_first.specs.Place.{placed};
ghost use Rattle.machine.specs.State.{least_machine};
ghost use Rattle.machine_bytes.specs.Bytes.{machine_size, each_bytes, each_of, machine_bytes, machine_of, reading, put_code};

use error::Refusal;
use fields::Field;
use machine::{Machine, Setup};
use std::array;

mod elements;
mod fields;

// How many bytes a machine has.
pub const MACHINE_BYTES: usize = 2950;

// Where the CPUs, the threads and the locks begin.
const CPUS_AT: usize = 6;

const THREADS_AT: usize = 230;

const LOCKS_AT: usize = 646;

// So many elements in the bytes, one behind the other, from a place on.
fn read_each<T: Field, const N: usize>(bytes: &[u8], at: usize) -> [T; N]
    requires { at + T.BYTES * N ≤ length bytes.now }
    ensures { result ≡ each_of T.from_bytes T.BYTES N (drop at bytes.now) }
{
    array::from_fn(
        |i: usize| -> T
            requires { at + T.BYTES * (i + 1) ≤ length bytes.now }
        { T::read(bytes, at + T::BYTES * i) },
    )
}

// The machine in front of the bytes. Too few bytes are refused.
pub fn machine_of(bytes: &[u8]) -> Result<Machine, Refusal>
    ensures { says least_machine result ≡ reading bytes.now }
{
    if bytes.len() < MACHINE_BYTES {
        return Err(Refusal::Einval);
    }
    Ok(Machine {
        setup: Setup::read(bytes, 0),
        cpus: read_each(bytes, CPUS_AT),
        threads: read_each(bytes, THREADS_AT),
        locks: read_each(bytes, LOCKS_AT),
    })
}

// The elements' bytes, one behind the other, from a place on. They read back as the elements.
fn put_each<T: Field + Copy>(out: &mut [u8], at: usize, items: &[T])
    requires { at + T.BYTES * length items.now ≤ length out.old }
    ensures room { out.new ≡ sets out.old at (each_bytes T.to_bytes items.now) }
    ensures back { (rest : List ℕ) → each_of T.from_bytes T.BYTES (length items.now) (each_bytes T.to_bytes items.now ++ rest) ≡ items.now }
{
    for (i, item) in items.iter().enumerate() {
        item.put(out, at + T::BYTES * i);
    }
}

// The machine's bytes over the front of the room. Bytes past them stay, and room too short for them stays as it was.
pub fn put_machine(out: &mut [u8], m: Machine) -> Result<(), Refusal>
    ensures code { number_of result ≡ put_code (length out.old) }
    ensures room { out.new ≡ placed 0 (machine_bytes m) out.old }
    ensures size { length (machine_bytes m) ≡ machine_size }
    ensures back { machine_size ≤ length out.old → (rest : List ℕ) → machine_of (machine_bytes m ++ rest) ≡ m }
    ensures read { machine_size ≤ length out.old → machine_of out.new ≡ m }
{
    if out.len() < MACHINE_BYTES {
        return Err(Refusal::Enomem);
    }
    m.setup.put(out, 0);
    put_each(out, CPUS_AT, &m.cpus);
    put_each(out, THREADS_AT, &m.threads);
    put_each(out, LOCKS_AT, &m.locks);
    Ok(())
}
