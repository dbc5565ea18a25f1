//! The configurations that the benches run with, from scripts.
//!
//! Tests: none.
#![tactic(auto)]

ghost use Rattle.fw_command.specs.WellFormed.{IsLine};

use anyhow::{Result, bail};
use fw_command::{Line, Pace, parse_script};
use rule_chain::Config;
use rule_edits::{apply_owned, is_changing};
use std::alloc::Global;

/// The configuration behind the command of a line, which isn't a listing.
fn behind_line(alloc: Global, config: Config, line: &Line) -> Result<Config>
    requires { IsLine line.now }
{
    if !is_changing(&line.command) {
        bail!("a listing");
    }
    match apply_owned(alloc, config, &line.command) {
        Ok(next) => Ok(next),
        Err(_) => bail!("a refused command"),
    }
}

/// The configuration behind the commands of a script. It fails at a script's fault, a listing, a command that is
/// refused, and want of memory.
pub fn behind_script(alloc: Global, first: Config, text: &str) -> Result<Config> {
    let Ok(script) = parse_script(alloc, text.as_bytes(), Pace::Serial) else {
        bail!("a script's fault");
    };
    let mut config = first;
    for line in script.before.as_slice() {
        config = behind_line(alloc, config, line)?;
    }
    Ok(config)
}

/// The configuration of a script's commands.
pub fn configured(alloc: Global, text: &str) -> Result<Config> {
    behind_script(alloc, Config::new(alloc)?, text)
}
