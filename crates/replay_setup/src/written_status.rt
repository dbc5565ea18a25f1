ghost use Rattle.std.specs.Prelude.{◌≡◌};
ghost use Rattle.replay_setup.specs.WrittenStatus.{status_of};

use fw_base::Failed;

/// The status of a text that was to be written with this one: 5 where the sink failed.
pub fn status_written(wanted: u8, written: Result<(), Failed>) -> u8
    ensures { result ≡ status_of wanted written }
{
    match written {
        Ok(()) => wanted,
        Err(Failed) => 5,
    }
}
