ghost use Rattle.fw_command.specs.WellFormed.{IsLine};

use crate::kind::EditKind;
use crate::scripts::{edits, rules, tables};
use anyhow::{Result, bail};
use bench_configurations::{behind_script, configured};
use fw_command::{Line, Pace, parse_script};
use rule_chain::Config;
use rule_edits::{apply, is_changing};
use std::alloc::Global;

/// The configuration behind the command of a line, which isn't a listing, beside the one before it.
fn beside_line(alloc: Global, config: &Config, line: &Line) -> Result<Config>
    requires { IsLine line.now }
{
    if !is_changing(&line.command) {
        bail!("a listing");
    }
    match apply(alloc, config, &line.command) {
        Ok(next) => Ok(next),
        Err(_) => bail!("a refused command"),
    }
}

/// The configuration with all rules and both tables.
pub fn first_configuration(alloc: Global) -> Result<Config> {
    let mut config = configured(alloc, rules(alloc)?.as_str())?;
    for table in tables(alloc)? {
        config = behind_script(alloc, config, table.as_str())?;
    }
    Ok(config)
}

/// The configuration, and what each edit made of the one before.
pub fn edited(alloc: Global, first: Config, kind: EditKind) -> Result<Vec<Config>> {
    let Ok(script) = parse_script(alloc, edits(alloc, kind)?.as_bytes(), Pace::Serial) else {
        bail!("a script's fault");
    };
    let mut kept = Vec::new(alloc);
    let mut config = first;
    for line in script.before.as_slice() {
        let next = beside_line(alloc, &config, line)?;
        kept.push(config)?;
        config = next;
    }
    kept.push(config)?;
    Ok(kept)
}
