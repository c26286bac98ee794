// A form as lent bytes, so that a log that arrives in fragments can be fed from C: each call reads the form from its bytes and writes it back.
//
// New here. Document 02, request 7. A form has 2,962 bytes: the machine's 2,950, as machine_bytes has them, then eleven places for pending
// bytes, then how many are pending, 1 byte. A caller can rely on these: too few bytes are no form and are refused with EINVAL; a refusal changes
// no lent byte; and the bytes after a call read as the form that feed leaves.

#![tactic(auto)]

ghost use Rattle.std.specs.Prelude.{◌≡◌, cond, ltb, ◌++◌, ◌≤◌, length, drop};
ghost use Rattle.error.specs.Codes.{OK, ENOMEM, EINVAL, number_of};
ghost use Rattle.error.specs.Answer.{answer, says};
ghost use Rattle.runner.specs.Run.{on_ok};
ghost use Rattle.form_bytes.specs.Form.{
  form_bytes,
  form_of,
  start_code,
  start_room,
  start_form,
  on_form,
  fed_by,
  form_after,
  room_after,
  fed_form,
  finished_code,
};

use error::Refusal;
use feed::{Form, PENDING_BYTES};

// How many bytes a form has.
pub const FORM_BYTES: usize = 2962;

// Where the places for pending bytes begin, and where it stands how many there are.
const PENDING_AT: usize = 2950;

const COUNT_AT: usize = 2961;

// The form in front of the bytes. Too few bytes are no form.
fn form_of(bytes: &[u8]) -> Result<Form, Refusal>
    ensures { says (form_of bytes.now) result ≡ answer (on_form bytes.now OK EINVAL) (form_of bytes.now) }
{
    if bytes.len() < FORM_BYTES {
        return Err(Refusal::Einval);
    }
    let machine = machine_bytes::machine_of(bytes)?;
    let mut pending = [0; PENDING_BYTES];
    pending.copy_from_slice(&bytes[PENDING_AT..PENDING_AT + PENDING_BYTES]);
    Ok(Form {
        machine,
        pending,
        count: u32::from(bytes[COUNT_AT]),
    })
}

// A form over the front of the room. It reads back as itself, and room too short for it stays as it was.
fn put_form(out: &mut [u8], form: &Form) -> Result<(), Refusal>
    requires { form.now.count ≤ 11 }
    ensures code { number_of result ≡ cond (ltb (length out.old) 2962) ENOMEM OK }
    ensures room { out.new ≡ on_ok (number_of result) (form_bytes form.now ++ drop 2962 out.old) out.old }
    ensures back { form_of out.new ≡ on_ok (number_of result) form.now (form_of out.old) }
{
    if out.len() < FORM_BYTES {
        return Err(Refusal::Enomem);
    }
    machine_bytes::put_machine(out, form.machine)?;
    out[PENDING_AT..PENDING_AT + PENDING_BYTES].copy_from_slice(&form.pending);
    out[COUNT_AT] = form.count as u8;
    Ok(())
}

// A form with nothing pending, on the machine that a setup byte asks for, over the front of the room. By `?` machine and form would be copied twice
// more each, which is 16 KB of stack.
pub fn start_form(setup: u8, out: &mut [u8]) -> Result<(), Refusal>
    ensures code { number_of result ≡ start_code setup (length out.old) }
    ensures room { out.new ≡ start_room setup out.old }
    ensures back { form_of out.new ≡ start_form setup out.old }
{
    let machine = match machine::from_setup_byte(setup) {
        Ok(machine) => machine,
        Err(why) => return Err(why),
    };
    match feed::start(machine) {
        Ok(form) => put_form(out, &form),
        Err(why) => Err(why),
    }
}

// A fragment, its answers into lent room, on the form in front of the bytes: how many records were run.
pub fn feed_form(bytes: &mut [u8], fragment: &[u8], out: &mut [u8]) -> Result<u32, Refusal>
    ensures fed { says 0 result ≡ fed_by bytes.old fragment.now (length out.old) }
    ensures form { bytes.new ≡ form_after bytes.old fragment.now (length out.old) }
    ensures back { form_of bytes.new ≡ fed_form bytes.old fragment.now (length out.old) }
    ensures room { out.new ≡ room_after bytes.old fragment.now out.old }
{
    let mut form = form_of(bytes)?;
    let records = feed::feed(&mut form, fragment, out)?;
    put_form(bytes, &form)?;
    Ok(records)
}

// The end of a log, by the form in front of the bytes.
pub fn finish_form(bytes: &[u8]) -> Result<(), Refusal>
    ensures { number_of result ≡ finished_code bytes.now }
{
    let form = form_of(bytes)?;
    feed::finish(&form)
}
