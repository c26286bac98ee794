// The calls of the C kernel that take a log as it arrives, on a form in lent bytes. The crate kernel_form_c exports them, and
// include/hubcrackle.h declares them.
//
// New here. Document 02, request 7. Their archive is one of its own: the loop and the test of well-formedness stand in each archive once, and
// with a second caller there the compiler would no longer put them into hubcrackle_run, which would take more time and stack. A caller can rely on
// these: a refusal changes no lent byte, and the bytes of a form read as the form that the call on a form leaves.

#![tactic(auto)]

ghost use Rattle.std.specs.Prelude.{◌≡◌, length};
ghost use Rattle.runner.specs.Run.{on_ok};
ghost use Rattle.form_bytes.specs.Form.{
  start_code,
  start_room,
  start_form,
  form_of,
  fed_code,
  records_fed,
  form_after,
  fed_form,
  room_after,
  finished_code,
};

// A form with nothing pending, on the machine that a setup byte asks for: 2,962 bytes.
pub fn hubcrackle_start(setup: u8, form: &mut [u8]) -> i32
    ensures code { result ≡ start_code setup (length form.old) }
    ensures form { form.new ≡ start_room setup form.old }
    ensures back { form_of form.new ≡ start_form setup form.old }
{
    let started = form_bytes::start_form(setup, form);
    error::number(started)
}

// A fragment: the answers of the records that it completes, 8 bytes each, and how many there are.
pub fn hubcrackle_feed(form: &mut [u8], fragment: &[u8], out: &mut [u8], records: &mut u32) -> i32
    ensures code { result ≡ fed_code form.old fragment.now (length out.old) }
    ensures form { form.new ≡ form_after form.old fragment.now (length out.old) }
    ensures back { form_of form.new ≡ fed_form form.old fragment.now (length out.old) }
    ensures room { out.new ≡ room_after form.old fragment.now out.old }
    ensures records { records.new ≡ on_ok result (records_fed form.old fragment.now (length out.old)) records.old }
{
    match form_bytes::feed_form(form, fragment, out) {
        Ok(count) => {
            *records = count;
            error::OK
        }
        Err(why) => i32::from(why),
    }
}

// The end of a log.
pub fn hubcrackle_finish(form: &[u8]) -> i32
    ensures { result ≡ finished_code form.now }
{
    let ended = form_bytes::finish_form(form);
    error::number(ended)
}
