ghost use Rattle.std.specs.Prelude.{IfOk};
ghost use Rattle.fw_command.specs.WellFormed.{IsLine, IsScript};

use fw_base::OutOfMemory;
use fw_command::{Line, Pace, Script, ScriptFault, parse_script};
use rule_chain::Config;
use rule_edits::{ApplyFault, apply_owned, is_changing};
use std::alloc::Global;
use std::process::Abort;

/// The commands of a text, as it reads in a script before `live`.
pub(crate) fn commands(rt: &impl Abort, alloc: Global, text: &str) -> Result<Script, OutOfMemory>
    ensures { IfOk result IsScript }
{
    match parse_script(alloc, text.as_bytes(), Pace::Serial) {
        Ok(script) => Ok(script),
        Err(ScriptFault::OutOfMemory) => Err(OutOfMemory),
        Err(fault) => panic!(rt; "{fault}"),
    }
}

/// The configuration behind the command of a line.
fn behind_line(
    rt: &impl Abort,
    alloc: Global,
    config: Config,
    line: &Line,
) -> Result<Config, OutOfMemory>
    requires { IsLine line.now }
{
    assert!(rt; is_changing(&line.command));
    match apply_owned(alloc, config, &line.command) {
        Ok(next) => Ok(next),
        Err(ApplyFault::OutOfMemory) => Err(OutOfMemory),
        Err(fault) => panic!(rt; "{fault}"),
    }
}

/// The configuration of a text's commands.
pub(crate) fn configured(
    rt: &impl Abort,
    alloc: Global,
    text: &str,
) -> Result<Config, OutOfMemory> {
    let script = commands(rt, alloc, text)?;
    let mut config = Config::new(alloc)?;
    for line in script.before.as_slice() {
        config = behind_line(rt, alloc, config, line)?;
    }
    Ok(config)
}
