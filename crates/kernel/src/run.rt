// The call that runs a log. It stands in a file of its own: its definitions are those of the whole machine, which the other calls do without.
ghost use Rattle.std.specs.Prelude.{◌≡◌, length};
ghost use Rattle.setup_run.specs.Run.{code_from_setup, room_from_setup};

// The answers of a log, from the machine that a setup byte asks for: 8 bytes a record.
pub fn hubcrackle_run(setup: u8, log: &[u8], out: &mut [u8]) -> i32
    ensures code { result ≡ code_from_setup setup log.now (length out.old) }
    ensures room { out.new ≡ room_from_setup setup log.now out.old }
{
    error::number(setup_run::run_from_setup(setup, log, out))
}
