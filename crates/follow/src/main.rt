// Follows a controller's log as it arrives: a setup byte and a log on standard input, each answer on standard output as soon as its record is
// whole.
//
// The work is in the proved crate feed. A read takes what is there, and the answers of its records are written before the next read. So the log
// may have any length. An input with no setup byte or a bad one gets one answer, and one that ends inside a record gets one more. A read that
// fails counts as the end of the input.

#![tactic(auto)]

use answers::ANSWER_BYTES;
use error::Refusal;
use feed::Form;
use log_tests::MAX_LOG_BYTES;
use program::MAX_ANSWER_BYTES;
use std::io;
use std::io::{Read, Write};

// Why no more of a log is followed before its end: it is refused, or its answers can't be written.
#[derive(Clone, Copy, Debug)]
enum Stop {
    Refused(Refusal),
    NotWritten(io::Error),
}

impl From<Refusal> for Stop {
    fn from(why: Refusal) -> Stop {
        Stop::Refused(why)
    }
}

impl From<io::Error> for Stop {
    fn from(error: io::Error) -> Stop {
        Stop::NotWritten(error)
    }
}

// Feeds a fragment, and writes its answers. At most eleven bytes were pending, so it completes no more records than the longest log has.
fn answer<W: Write>(output: &mut W, form: &mut Form, fragment: &[u8]) -> Result<(), Stop> {
    let mut out = [0u8; MAX_ANSWER_BYTES];
    let records = feed::feed(form, fragment, &mut out)?;
    output.write_all(reading::front_of(&out, records as usize * ANSWER_BYTES))?;
    Ok(())
}

// One read: what is there is fed. Says whether there was anything.
fn follow_some<R: Read, W: Write>(
    input: &mut R,
    output: &mut W,
    form: &mut Form,
) -> Result<bool, Stop> {
    let mut fragment = [0u8; MAX_LOG_BYTES];
    let size = input.read(&mut fragment).unwrap_or(0);
    if size == 0 {
        return Ok(false);
    }
    answer(output, form, reading::front_of(&fragment, size))?;
    Ok(true)
}

// The setup byte, and every read of the log behind it. Where the input ends the form is finished. A proved loop has to end, and nothing says that an
// input does; no run makes so many reads.
fn follow_input<R: Read, W: Write>(input: &mut R, output: &mut W) -> Result<(), Stop> {
    let mut setup = [0u8; 1];
    if input.read(&mut setup).unwrap_or(0) != 1 {
        return Err(Stop::Refused(Refusal::Einval));
    }
    let machine = machine::from_setup_byte(setup[0])?;
    let mut form = feed::start(machine)?;
    for _ in 0..u64::MAX {
        if !follow_some(input, output, &mut form)? {
            break;
        }
    }
    feed::finish(&form)?;
    Ok(())
}

// One answer, for an input that is refused.
fn refuse<W: Write>(output: &mut W, why: Refusal) -> io::Result<()> {
    let mut out = [0u8; ANSWER_BYTES];
    let _ = answers::put_answer(&mut out, Err(why), 0);
    output.write_all(&out)
}

fn main(rt: HostRuntime) -> io::Result<()> {
    let mut output = rt.stdout();
    match follow_input(&mut rt.stdin(), &mut output) {
        Ok(()) => Ok(()),
        Err(Stop::Refused(why)) => refuse(&mut output, why),
        Err(Stop::NotWritten(error)) => Err(error),
    }
}
