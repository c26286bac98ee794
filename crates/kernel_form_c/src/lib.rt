// The archive for a C kernel whose logs arrive in fragments: an export for each call of the crate kernel_form, with its clauses.
// include/hubcrackle.h declares them.

#![tactic(auto)]

ghost use Rattle.std.specs.Prelude.{◌≡◌, length};
ghost use Rattle.runner.specs.Run.{on_ok};
ghost use Rattle.form_bytes.specs.Form.{
  start_code,
  start_room,
  start_form,
  form_of,
  fed_code,
  records_fed,
  form_after,
  fed_form,
  room_after,
  finished_code,
};

// A form with nothing pending, on the machine that a setup byte asks for: 2,962 bytes.
#[unsafe(no_mangle)]
pub extern "C" fn hubcrackle_start(setup: u8, form: &mut [u8]) -> i32
    ensures code { result ≡ start_code setup (length form.old) }
    ensures form { form.new ≡ start_room setup form.old }
    ensures back { form_of form.new ≡ start_form setup form.old }
{
    kernel_form::hubcrackle_start(setup, form)
}

// A fragment: the answers of the records that it completes, 8 bytes each, and how many there are.
#[unsafe(no_mangle)]
pub extern "C" fn hubcrackle_feed(
    form: &mut [u8],
    fragment: &[u8],
    out: &mut [u8],
    records: &mut u32,
) -> i32
    ensures code { result ≡ fed_code form.old fragment.now (length out.old) }
    ensures form { form.new ≡ form_after form.old fragment.now (length out.old) }
    ensures back { form_of form.new ≡ fed_form form.old fragment.now (length out.old) }
    ensures room { out.new ≡ room_after form.old fragment.now out.old }
    ensures records { records.new ≡ on_ok result (records_fed form.old fragment.now (length out.old)) records.old }
{
    kernel_form::hubcrackle_feed(form, fragment, out, records)
}

// The end of a log.
#[unsafe(no_mangle)]
pub extern "C" fn hubcrackle_finish(form: &[u8]) -> i32
    ensures { result ≡ finished_code form.now }
{
    kernel_form::hubcrackle_finish(form)
}
