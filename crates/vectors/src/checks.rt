// Judges stored claims by the proved checker, asked in both of its ways, and compares its verdicts with the stored one.
use answers::ANSWER_BYTES;
use error::Refusal;
use reading::{byte_at, front_of, rest_of};
use record::RECORD_BYTES;
use std::io;

// The log of a case may be too long by one record.
const MOST_INPUT_BYTES: usize = program::MAX_INPUT_BYTES + RECORD_BYTES;

// So may its claim by one answer.
const MOST_CLAIM_BYTES: usize = program::MAX_ANSWER_BYTES + ANSWER_BYTES;

// No digit follows a larger number than this.
const LARGE_NUMBER: u32 = 100000;

// A stored verdict: the lowest record that differs, if one does, or the number of the code.
type Stored = Result<Option<u32>, i32>;

// The first word of a text.
fn word(text: &[u8]) -> &[u8] {
    crate::split_once(text, b' ').0
}

// What stands behind the first word and its space.
fn behind(text: &[u8]) -> &[u8] {
    crate::split_once(text, b' ').1.unwrap_or(&[])
}

// Whether a text is the sign for no bytes.
fn is_nothing(text: &[u8]) -> bool {
    text == b"-".as_slice()
}

// Whether a text is made of pairs of digits, at least one and at most so many.
fn is_pairs(text: &[u8], most: usize) -> bool {
    !text.is_empty() && text.len() % 2 == 0 && text.len() / 2 <= most
}

// The number that decimal digits spell.
fn number_of(text: &[u8]) -> Option<u32> {
    if text.is_empty() {
        return None;
    }
    let mut number: u32 = 0;
    for &glyph in text {
        if !glyph.is_ascii_digit() || number > LARGE_NUMBER {
            return None;
        }
        number = number * 10 + crate::digit(glyph) as u32;
    }
    Some(number)
}

// A verdict that names a record.
fn differs(number: &[u8]) -> Option<Stored> {
    Some(Ok(Some(number_of(number)?)))
}

// A verdict that names a code, by its number with the minus sign. The number is made in two's complement.
fn refused(number: &[u8]) -> Option<Stored> {
    if byte_at(number, 0) != b'-' {
        return None;
    }
    let size = number_of(rest_of(number, 1))?;
    Some(Err(high_first::signed(0u32.wrapping_sub(size))))
}

// What the words of a verdict say.
fn stored_verdict(text: &[u8]) -> Option<Stored> {
    if text == b"accepted".as_slice() {
        return Some(Ok(None));
    }
    if word(text) == b"differs".as_slice() {
        return differs(behind(text));
    }
    if word(text) == b"refused".as_slice() {
        return refused(behind(text));
    }
    None
}

// Whether a verdict is the stored one.
fn agrees(found: Result<Option<u32>, Refusal>, stored: Stored) -> bool {
    found.map_err(i32::from) == stored
}

// Whether the checker has the stored verdict on a claim, asked with the whole input and, if there is a setup byte, with that and the log.
fn as_expected(input: &[u8], claim: &[u8], stored: Stored) -> bool {
    agrees(claims::check_input(input, claim), stored)
        && input.split_first().is_none_or(|(setup, log)| {
            agrees(claims::check(*setup, log, claim), stored)
        })
}

// Whether the texts are those of a setup byte and a log, or of nothing at all.
fn is_input(setup: &[u8], log: &[u8]) -> bool {
    if is_nothing(setup) {
        return is_nothing(log);
    }
    is_pairs(setup, 1) && (is_nothing(log) || is_pairs(log, MOST_INPUT_BYTES - 1))
}

// Decodes a setup byte and the log behind it, and says how many bytes they are.
fn unhex_input(setup: &[u8], log: &[u8], room: &mut [u8]) -> usize {
    if room.is_empty() {
        return 0;
    }
    crate::unhex(setup, room);
    crate::unhex(log, &mut room[1..]);
    setup.len() / 2 + log.len() / 2
}

// Judges a claim, and compares.
fn compare(
    rt: &impl Print,
    setup: &[u8],
    log: &[u8],
    claim: &[u8],
    stored: Stored,
) -> io::Result<()> {
    let mut input = [0u8; MOST_INPUT_BYTES];
    let n = unhex_input(setup, log, &mut input);
    let mut claimed = [0u8; MOST_CLAIM_BYTES];
    let k = crate::unhex(claim, &mut claimed);
    crate::verdict(
        rt,
        as_expected(front_of(&input, n), front_of(&claimed, k), stored),
    )
}

// Whether the parts of a line are those of a case.
fn is_case(setup: &[u8], log: &[u8], claim: &[u8]) -> bool {
    is_input(setup, log) && (is_nothing(claim) || is_pairs(claim, MOST_CLAIM_BYTES))
}

// One line: a name, the setup byte, the log, the claimed answers and the verdict on them.
pub(crate) fn case(rt: &impl Print, line: &[u8]) -> io::Result<()> {
    crate::put(rt, word(line))?;
    let from_setup = behind(line);
    let from_log = behind(from_setup);
    let from_claim = behind(from_log);
    let setup = word(from_setup);
    let log = word(from_log);
    let claim = word(from_claim);
    match stored_verdict(behind(from_claim)) {
        Some(stored) if is_case(setup, log, claim) => compare(rt, setup, log, claim, stored),
        _ => crate::not_a_case(rt),
    }
}
