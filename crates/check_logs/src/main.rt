// Checks claimed answers to the logs of controllers. The arguments name files in pairs: a log as the program replay reads it, then its answers as
// replay writes them. One line for each pair says what was found, and a last line counts them.
//
// The verdict is that of the proved crate claims. All memory is fixed, and nothing is kept from one pair to the next but the counts.

#![tactic(auto)]

mod files;
mod judge;
mod names;
mod say;

ghost use Rattle.std.specs.Prelude.{◌+◌, ◌*◌, ◌^◌, ◌<◌, ◌≡◌, IfOk};

use judge::Outcome;
use say::Count;
use std::env::FillError;
use std::io;
use std::rt::{Env, Files};

// The number of the first argument; the program's own name has the number 0.
const FIRST: usize = 1;

// How many arguments a pair has.
const PAIR: usize = 2;

// The longest name that a path can have, the 0 behind it left out.
const MAX_NAME: usize = 4095;

// How many pairs had each outcome.
#[derive(Clone, Copy, Debug, PartialEq, Eq, Default)]
struct Tally {
    accepted: usize,
    differs: usize,
    refused: usize,
}

// A tally with one more pair.
fn counted(tally: Tally, outcome: Outcome) -> Tally
    requires { tally.accepted + tally.differs + tally.refused < 2 ^ 63 }
    ensures { result.accepted + result.differs + result.refused ≡ tally.accepted + tally.differs + tally.refused + 1 }
{
    let mut tally = tally;
    match outcome {
        Outcome::Accepted => tally.accepted += 1,
        Outcome::Differs => tally.differs += 1,
        Outcome::Refused => tally.refused += 1,
    }
    tally
}

// The pair whose log is named by the argument of this number. There is such an argument; there may be none behind it.
fn check_pair(rt: &(impl Env + Files + Print), number: usize) -> io::Result<Outcome>
    requires { number + 1 < 2 ^ 64 }
{
    let mut log_name = [0u8; MAX_NAME];
    let Ok(log_size) = rt.arg(number, &mut log_name) else {
        return judge::too_long(rt, number);
    };
    let mut answers_name = [0u8; MAX_NAME];
    match rt.arg(number + 1, &mut answers_name) {
        Ok(size) => judge::pair(rt, &log_name[..log_size], &answers_name[..size]),
        Err(FillError::TooLong) => judge::too_long(rt, number + 1),
        Err(FillError::NotPresent) => judge::no_answers(rt, &log_name[..log_size]),
    }
}

// Every pair, in the order of the arguments. A write that fails ends it.
fn check_pairs(rt: &(impl Env + Files + Print), pairs: usize) -> io::Result<Tally>
    requires { pairs * 2 < 2 ^ 64 }
    ensures { IfOk result (λ tally. tally.accepted + tally.differs + tally.refused ≡ pairs) }
{
    let mut tally = Tally::default();
    for pair in 0..pairs {
        let outcome = check_pair(rt, pair * PAIR + FIRST)?;
        tally = counted(tally, outcome);
    }
    Ok(tally)
}

// How many arguments there are, the program's own name with them. None of them is copied.
fn argument_count(env: &impl Env) -> usize {
    for number in 0..usize::MAX {
        if let Err(FillError::NotPresent) = env.arg(number, &mut []) {
            return number;
        }
    }
    usize::MAX
}

// The program's own name is counted with the arguments, so half of their number, rounded down, is how many pairs there are, the last of which may
// have no answers.
fn main(rt: HostRuntime) -> io::Result<()> {
    let pairs = argument_count(&rt) / PAIR;
    if pairs == 0 {
        return println!(rt; "usage: check_logs LOG ANSWERS ...");
    }
    let tally = check_pairs(&rt, pairs)?;
    let all = Count(pairs, "pair");
    println!(rt;
        "{all}: {} accepted, {} differs, {} refused",
        tally.accepted, tally.differs, tally.refused
    )
}
