// A pair is judged, and its line written.
use crate::files;
use crate::files::NotThere;
use crate::names::{Asked, CodeBits};
use crate::say::Count;
use answers::ANSWER_BYTES;
use error::Refusal;
use log_tests::MAX_LOG_BYTES;
use machine::Setup;
use program::MAX_ANSWER_BYTES;
use reading::{byte_at, front_of, rest_of, word_at};
use record::{Operation, RECORD_BYTES};
use std::rt::Files;
use std::{fmt, io};

// Room for the longest input of replay, a setup byte and a log, and for its longest answers, and in each for one byte more, so that a longer file
// shows.
const INPUT_ROOM: usize = program::MAX_INPUT_BYTES + 1;

const CLAIM_ROOM: usize = MAX_ANSWER_BYTES + 1;

// How many bytes of an input stand before the log.
const SETUP_BYTES: usize = 1;

// Where the value stands in an answer, behind the code.
const VALUE_AT: usize = 4;

// What came of a pair.
#[derive(Clone, Copy, Debug, PartialEq, Eq)]
pub(crate) enum Outcome {
    Accepted,
    Differs,
    Refused,
}

// The line for a name that no path can have.
pub(crate) fn too_long(rt: &impl Print, number: usize) -> io::Result<Outcome> {
    println!(rt; "argument {number}: refused, the name is too long")?;
    Ok(Outcome::Refused)
}

// The line for a log that stands alone at the end of the arguments.
pub(crate) fn no_answers(rt: &impl Print, log_name: &[u8]) -> io::Result<Outcome> {
    rt.write_all(log_name)?;
    println!(rt; ": refused, no answers are named")?;
    Ok(Outcome::Refused)
}

// The answer over the front of some bytes: its code by name, and its value.
#[derive(Clone, Copy)]
struct Answer<'a>(&'a [u8]);

impl<'a> fmt::Display for Answer<'a> {
    fn fmt<W: fmt::Write>(&self, f: &mut fmt::Formatter<W>) -> fmt::Result {
        let code = CodeBits(word_at(self.0, 0));
        write!(f, "{code} {}", word_at(self.0, VALUE_AT))
    }
}

// What a record of an input asks for.
fn asked(input: &[u8], at: usize) -> Operation {
    let setup = Setup::try_from(byte_at(input, 0));
    match setup {
        Ok(setup) => record::request_of(
            setup,
            front_of(rest_of(input, at), RECORD_BYTES),
        ).operation,
        Err(_) => Operation::Malformed,
    }
}

// The end of the line for a claim that is wrong: the lowest record whose answer differs, what it asks for, the answer that is claimed, and the one
// that a run of the log up to this record gives.
fn differs(rt: &impl Print, input: &[u8], claim: &[u8], lowest: u32) -> io::Result<Outcome> {
    let number = lowest as usize;
    let at = number * RECORD_BYTES + SETUP_BYTES;
    let answer_at = number * ANSWER_BYTES;
    let mut right = [0u8; MAX_ANSWER_BYTES];
    let _ = program::respond(front_of(input, at + RECORD_BYTES), &mut right);
    println!(rt;
        "record {number} differs: {}, claimed {}, right {}",
        Asked(asked(input, at)),
        Answer(rest_of(claim, answer_at)),
        Answer(rest_of(&right, answer_at))
    )?;
    Ok(Outcome::Differs)
}

// Writes how many bytes of answers there are.
fn print_claimed(rt: &impl Print, size: usize) -> io::Result<()> {
    if size == 0 {
        print!(rt; "no answers")
    } else if size > MAX_ANSWER_BYTES {
        print!(rt; "more than {} of answers", Count(MAX_ANSWER_BYTES, "byte"))
    } else {
        print!(rt; "{} of answers", Count(size, "byte"))
    }
}

// Writes why a pair is refused: by the setup byte and the sizes, in the order in which they are judged.
fn print_why(rt: &impl Print, input: &[u8], claimed: usize) -> io::Result<()> {
    let Some((setup, log)) = input.split_first() else {
        return print!(rt; "no setup byte");
    };
    if Setup::try_from(*setup).is_err() {
        return print!(rt; "a bad setup byte");
    }
    if log.len() > MAX_LOG_BYTES {
        let most = Count(MAX_LOG_BYTES, "byte");
        return print!(rt; "the log has more than {most}");
    }
    if log.len() % RECORD_BYTES != 0 {
        return print!(rt; "the log ends inside a record");
    }
    print_claimed(rt, claimed)?;
    let records = Count(log.len() / RECORD_BYTES, "record");
    print!(rt; " to {records}")
}

// The end of the line for a pair that is not judged.
fn refused(rt: &impl Print, why: Refusal, input: &[u8], claimed: usize) -> io::Result<Outcome> {
    print!(rt; "refused, {why}: ")?;
    print_why(rt, input, claimed)?;
    println!(rt)?;
    Ok(Outcome::Refused)
}

// The end of the line for a claim that is right. Behind its setup byte the input has whole records, so that the division leaves out that byte alone.
fn accepted(rt: &impl Print, input: &[u8]) -> io::Result<Outcome> {
    let records = Count(input.len() / RECORD_BYTES, "record");
    println!(rt; "accepted, {records}")?;
    Ok(Outcome::Accepted)
}

// Judges an input and a claim to it.
fn judged(rt: &impl Print, input: &[u8], claim: &[u8]) -> io::Result<Outcome> {
    match claims::check_input(input, claim) {
        Ok(None) => accepted(rt, input),
        Ok(Some(lowest)) => differs(rt, input, claim, lowest),
        Err(why) => refused(rt, why, input, claim.len()),
    }
}

// The end of the line for a file of which there is nothing to judge.
fn not_there(rt: &impl Print, what: &str, why: NotThere) -> io::Result<Outcome> {
    println!(rt; "refused, {what} {why}")?;
    Ok(Outcome::Refused)
}

// Reads the answers to an input, and judges the two.
fn with_input(rt: &(impl Files + Print), input: &[u8], answers_name: &[u8]) -> io::Result<Outcome> {
    let mut claim = [0u8; CLAIM_ROOM];
    match files::read(rt, answers_name, &mut claim) {
        Ok(size) => judged(rt, input, front_of(&claim, size)),
        Err(why) => not_there(rt, "the answers", why),
    }
}

// The line of a pair of files.
pub(crate) fn pair(
    rt: &(impl Files + Print),
    log_name: &[u8],
    answers_name: &[u8],
) -> io::Result<Outcome> {
    rt.write_all(log_name)?;
    print!(rt; " ")?;
    rt.write_all(answers_name)?;
    print!(rt; ": ")?;
    let mut input = [0u8; INPUT_ROOM];
    match files::read(rt, log_name, &mut input) {
        Ok(size) => with_input(rt, front_of(&input, size), answers_name),
        Err(why) => not_there(rt, "the log", why),
    }
}
