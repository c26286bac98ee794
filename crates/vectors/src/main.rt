// Replays stored logs and stored calls by the proved library and compares every byte of the answers, and has stored claims judged and compares the
// verdicts. A line for each case says how it went, and for a log a second line says how it went in pieces.

#![tactic(auto)]

mod checks;
mod pieces;

ghost use Rattle.std.specs.Prelude.{◌≤◌, ◌<◌, length, IfSome};

use reading::{byte_at, front_of, rest_of, word_at};
use std::fs::File;
use std::io::{self, Write};
use std::rt::Files;

// The room for an input ends one byte behind the longest one.
const INPUT_ROOM_BYTES: usize = program::MAX_INPUT_BYTES + 1;

// As much of a stored file as is read.
const MAX_FILE_BYTES: usize = 300000;

fn put(rt: &impl Print, text: &[u8]) -> io::Result<()> {
    io::writer(rt).write_all(text)
}

// What stands before the first byte of this kind, and what stands behind it, if it is there.
fn split_once(text: &[u8], byte: u8) -> (&[u8], Option<&[u8]>)
    ensures { IfSome result.1 (λ behind. length behind.now < length text.now) }
{
    match text.iter().position(|b| *b == byte) {
        Some(at) => (front_of(text, at), text.get(at + 1..)),
        None => (text, None),
    }
}

// A hexadecimal digit; anything else counts as 0.
fn digit(glyph: u8) -> u8
    ensures { result < 16 }
{
    match glyph {
        b'0'..=b'9' => glyph - b'0',
        b'A'..=b'F' => glyph - b'A' + 10,
        _ => 0,
    }
}

// Decodes hexadecimal text into the room, as far as it reaches, and says how many bytes that is.
fn unhex(text: &[u8], room: &mut [u8]) -> usize {
    for (byte, pair) in room.iter_mut().zip(text.chunks_exact(2)) {
        *byte = digit(pair[0]) * 16 + digit(pair[1]);
    }
    (text.len() / 2).min(room.len())
}

fn verdict(rt: &impl Print, same: bool) -> io::Result<()> {
    if same {
        println!(rt; ": as expected")
    } else {
        println!(rt; ": DIFFERS")
    }
}

// Whether an input has the answers that are expected.
fn answers_agree(input: &[u8], expected: &[u8]) -> bool {
    let mut out = [0u8; program::MAX_ANSWER_BYTES];
    let size = program::respond(input, &mut out).unwrap_or(0);
    front_of(&out, size) == expected
}

// Eight bytes.
fn long_at(s: &[u8], at: usize) -> u64
    requires { at < 1000 }
{
    u64::from(word_at(s, at)) * 0x1_0000_0000 + u64::from(word_at(s, at + 4))
}

// The exported call that an input asks for: its number, the length of its room, its arguments at their width. A flag that is not there is 0.
fn called(input: &[u8], room: &mut [u8]) -> i32 {
    let a = word_at(input, 2);
    let b = word_at(input, 6);
    let c = word_at(input, 10);
    let d = word_at(input, 14);
    let e = word_at(input, 18);
    let long = long_at(input, 6);
    match byte_at(input, 0) {
        0 => kernel::hubcrackle_spin_lock_compute_owner(a, long, d, room),
        1 => kernel::hubcrackle_spin_lock_decode_owner(long_at(input, 2), c, room),
        2 => kernel::hubcrackle_spin_lock_valid(long, a, d, room),
        3 => {
            let thread = long_at(input, 14);
            kernel::hubcrackle_spin_unlock_valid(long, a, thread, word_at(input, 22), room)
        }
        4 => kernel::hubcrackle_cpu_mask_mod(a, b, c, d, e, room),
        5 => kernel::hubcrackle_validate_pin_mask(a, room),
        6 => kernel::hubcrackle_cpu_pin_compute(a, b, room),
        7 => {
            let cpus = rest_of(input, 22);
            kernel::hubcrackle_compute_ipi_mask(a, high_first::signed(b), c, cpus, d, e, room)
        }
        _ => kernel::hubcrackle_validate_ipi_mask(a, b, c, room),
    }
}

// Whether a call has the code and leaves the whole room that are expected.
fn call_agrees(input: &[u8], expected: &[u8]) -> bool {
    let mut room = [0x55u8; 12];
    let Some(lent) = room.get_mut(..byte_at(input, 1) as usize) else {
        return false;
    };
    let code = called(input, lent);
    code == high_first::signed(word_at(expected, 0)) && room.as_slice() == rest_of(expected, 4)
}

// What is said of a line that can't be read.
fn not_a_case(rt: &impl Print) -> io::Result<()> {
    println!(rt; ": not a case")
}

// One line: a name, an input and its answers, which `judge` compares.
fn case<J: FnOnce(&[u8], &[u8]) -> io::Result<()>>(
    rt: &impl Print,
    line: &[u8],
    judge: J,
) -> io::Result<()>
    requires { J.IsAlwaysCallable judge }
{
    let (name, rest) = split_once(line, b' ');
    put(rt, name)?;
    let Some(rest) = rest else {
        return not_a_case(rt);
    };
    let (input, Some(expected)) = split_once(rest, b' ') else {
        return not_a_case(rt);
    };
    let mut input_room = [0u8; INPUT_ROOM_BYTES];
    let input_size = unhex(input, &mut input_room);
    let mut expected_room = [0u8; program::MAX_ANSWER_BYTES];
    let expected_size = unhex(expected, &mut expected_room);
    judge(
        front_of(&input_room, input_size),
        front_of(&expected_room, expected_size),
    )
}

// A line with an input of the program: it is answered, and then once more in pieces.
fn log(rt: &impl Print, line: &[u8]) -> io::Result<()> {
    let (name, _) = split_once(line, b' ');
    case(rt, line, |input, expected| {
        verdict(rt, answers_agree(input, expected))?;
        put(rt, name)?;
        print!(rt; " in pieces")?;
        verdict(rt, pieces::as_expected(input, expected))
    })
}

// A line with a call.
fn call(rt: &impl Print, line: &[u8]) -> io::Result<()> {
    case(rt, line, |input, expected| {
        verdict(rt, call_agrees(input, expected))
    })
}

// Every line of a stored file, by `case`. A file that can't be opened is named on standard error, and the others are replayed.
fn replay<C: Fn(&[u8]) -> io::Result<()>>(
    rt: &(impl Files + Eprint),
    path: &str,
    case: C,
) -> io::Result<()>
    requires { C.IsAlwaysCallable case }
{
    let mut file = match File::open(rt, path) {
        Ok(file) => file,
        Err(error) => return eprintln!(rt; "{path}: {error}"),
    };
    let mut text = [0u8; MAX_FILE_BYTES];
    let size = reading::fill(&mut file, &mut text).unwrap_or_else(|failed| failed.size);
    let mut rest = front_of(&text, size);
    while !rest.is_empty() {
        let (line, more) = split_once(rest, b'\n');
        case(line)?;
        rest = more.unwrap_or(&[]);
    }
    Ok(())
}

fn main(rt: HostRuntime) -> io::Result<()> {
    replay(&rt, "logs-after-06.txt", |line| log(&rt, line))?;
    replay(&rt, "calls-01.txt", |line| call(&rt, line))?;
    replay(&rt, "checks-08.txt", |line| checks::case(&rt, line))?;
    replay(&rt, "checks-own.txt", |line| checks::case(&rt, line))
}
