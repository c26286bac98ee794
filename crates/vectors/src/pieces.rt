// Feeds a stored log in fragments, cut in many ways, and compares every byte of the answers and the code at the end with those of the whole log.
ghost use Rattle.std.specs.Prelude.{◌≤◌};

use answers::ANSWER_BYTES;
use error::Refusal;
use machine::Machine;
use reading::{front_of, rest_of};
use record::RECORD_BYTES;

// A log of at most so many records is cut in two at every place.
const SHORT_RECORDS: usize = 20;

// A log is fed in fragments of random sizes so many times, each time with another seed.
const ROUNDS: u32 = 8;

// In these rounds no fragment has more bytes.
const MOST_BYTES: u32 = 300;

// Half of the fragments of random sizes have no more bytes than this.
const FEW_BYTES: u32 = 15;

// No fragment of a random size has more bytes.
const MANY_BYTES: u32 = 16383;

// A log in more fragments counts as one that differs.
const MAX_PIECES: u32 = 100000;

// How a log is cut: the size of the first fragment, and that of each other one. With a spread, each other one has any size from 0 to that, drawn
// from a seed.
#[derive(Clone, Copy)]
struct Cuts {
    first: usize,
    fixed: usize,
    spread: u32,
    seed: u32,
}

// The next number of a fixed sequence, below 2^31.
fn next(seed: u32) -> u32 {
    let low = (seed % 0x8000_0000) as u64;
    ((low * 1103515245 + 12345) % 0x8000_0000) as u32
}

// The most bytes of a fragment of random size.
fn most_of(draw: u32, spread: u32) -> u32 {
    if spread > FEW_BYTES {
        if draw % 2 == 0 {
            return FEW_BYTES;
        }
    }
    spread
}

// The size of a fragment after the first.
fn size_after(fixed: usize, spread: u32, seed: u32) -> usize {
    if spread == 0 {
        return fixed;
    }
    let draw = seed / 65536;
    (draw / 2) as usize % (most_of(draw, spread) as usize + 1)
}

// So many bytes on from a place, or the end.
fn onward(at: usize, size: usize, end: usize) -> usize
    requires { at ≤ end }
    ensures { (at ≤ result) × (result ≤ end) }
{
    if size < end - at { at + size } else { end }
}

// There are two fragments at least, so that an empty one stands behind a log that the first one has whole.
fn goes_on(at: usize, end: usize, pieces: u32) -> bool {
    at < end || pieces < 2
}

// Feeds a log that is cut in one way, its answers one after the other into the room. Says how many bytes of answers were written and how the log ended,
// unless a fragment was refused or the log was not taken whole.
fn feed_cut(
    m: Machine,
    log: &[u8],
    cuts: Cuts,
    out: &mut [u8],
) -> Option<(usize, Result<(), Refusal>)> {
    let mut form = feed::start(m).ok()?;
    let mut at = 0;
    let mut done = 0;
    let mut size = cuts.first;
    let mut seed = cuts.seed;
    for pieces in 0..MAX_PIECES {
        if !goes_on(at, log.len(), pieces) {
            break;
        }
        let end = onward(at, size, log.len());
        let records = feed::feed(&mut form, &log[at..end], &mut out[done..]).ok()?;
        done = onward(done, records as usize * ANSWER_BYTES, out.len());
        at = end;
        seed = next(seed);
        size = size_after(cuts.fixed, cuts.spread, seed);
    }
    if at < log.len() {
        return None;
    }
    Some((done, feed::finish(&form)))
}

// Whether a log that is cut in one way has the answers and the end that are expected.
fn agrees(m: Machine, log: &[u8], cuts: Cuts, expected: &[u8], end: Result<(), Refusal>) -> bool {
    let mut out = [0u8; program::MAX_ANSWER_BYTES];
    feed_cut(m, log, cuts, &mut out) == Some((expected.len(), end))
        && front_of(&out, expected.len()) == expected
}

// A spread up to the size of a log.
fn large(size: usize) -> u32 {
    if size < MANY_BYTES as usize {
        return size as u32;
    }
    MANY_BYTES
}

// Cut in two at every place.
fn in_two(m: Machine, log: &[u8], expected: &[u8], end: Result<(), Refusal>) -> bool {
    (0..=log.len()).all(|first| {
        let cuts = Cuts {
            first,
            fixed: log.len(),
            spread: 0,
            seed: 0,
        };
        agrees(m, log, cuts, expected, end)
    })
}

// Cut at random places, in several rounds.
fn at_random(
    m: Machine,
    log: &[u8],
    spread: u32,
    expected: &[u8],
    end: Result<(), Refusal>,
) -> bool {
    (0..ROUNDS).all(|seed| {
        let cuts = Cuts {
            first: seed as usize,
            fixed: 0,
            spread,
            seed,
        };
        agrees(m, log, cuts, expected, end)
    })
}

// Cut in every way: byte by byte, in random fragments of a few hundred bytes at most, and then a short log in two and a longer one in large
// random fragments.
fn every_way(m: Machine, log: &[u8], expected: &[u8], end: Result<(), Refusal>) -> bool {
    let single = Cuts {
        first: 1,
        fixed: 1,
        spread: 0,
        seed: 0,
    };
    if !agrees(m, log, single, expected, end) || !at_random(m, log, MOST_BYTES, expected, end) {
        return false;
    }
    if log.len() / RECORD_BYTES <= SHORT_RECORDS {
        return in_two(m, log, expected, end);
    }
    at_random(m, log, large(log.len()), expected, end)
}

// Whether one answer with a refusal is what is expected.
fn refused(why: Refusal, expected: &[u8]) -> bool {
    let mut out = [0u8; ANSWER_BYTES];
    let _ = answers::put_answer(&mut out, Err(why), 0);
    out.as_slice() == expected
}

// A log that ends inside a record: its whole records have the answers that they have as a log of their own, and the end is EINVAL. A log that is too
// long for the program is one of these too, since the room for an input ends one byte behind its 2,048th record.
fn cut_off(m: Machine, input: &[u8], whole: usize) -> bool {
    let mut out = [0u8; program::MAX_ANSWER_BYTES];
    let size = program::respond(front_of(input, whole), &mut out).unwrap_or(0);
    every_way(
        m,
        rest_of(input, 1),
        front_of(&out, size),
        Err(Refusal::Einval),
    )
}

// Whether an input in fragments has the answers that are expected of it whole. A setup byte that is missing or bad is refused before any feed.
pub(crate) fn as_expected(input: &[u8], expected: &[u8]) -> bool {
    let Some((setup, log)) = input.split_first() else {
        return refused(Refusal::Einval, expected);
    };
    let m = match machine::from_setup_byte(*setup) {
        Ok(m) => m,
        Err(why) => return refused(why, expected),
    };
    let left = log.len() % RECORD_BYTES;
    if left == 0 {
        return every_way(m, log, expected, Ok(()));
    }
    cut_off(m, input, input.len() - left)
}
