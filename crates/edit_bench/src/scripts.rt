use crate::kind::EditKind;
use anyhow::Result;
use std::alloc::Global;

/// How many rules there are beside rule 65535.
const RULES: u32 = 30_000;

/// How many entries the large table has.
const ENTRIES: u32 = 36_000;

/// How many entries the small one has.
const FEW_ENTRIES: u32 = 100;

/// How many edits are made.
const EDITS: u32 = 4_096;

/// The commands that add the rules.
pub fn rules(alloc: Global) -> Result<String> {
    let mut script = String::new(alloc);
    for number in 1..RULES + 1 {
        script.push_str(format!(in alloc; "add {number} deny 0 from any to any\n")?.as_str())?;
    }
    Ok(script)
}

/// So many commands that put entries into a table of one letter.
fn table(alloc: Global, name: char, entries: u32) -> Result<String> {
    let mut script = String::new(alloc);
    for entry in 0..entries {
        let (high, low) = (entry / 256, entry % 256);
        script.push_str(format!(in alloc; "table {name} add 10.0.{high}.{low} 7\n")?.as_str())?;
    }
    Ok(script)
}

/// The commands that make the large table and the small one.
pub fn tables(alloc: Global) -> Result<[String; 2]> {
    Ok([table(alloc, 't', ENTRIES)?, table(alloc, 'u', FEW_ENTRIES)?])
}

/// The command of one edit, of which the first has the number 1.
fn edit(alloc: Global, kind: EditKind, number: u32) -> Result<String> {
    Ok(match kind {
        EditKind::Settings => format!(in alloc; "sysctl dyn_max={number}\n")?,
        EditKind::Sets => format!(in alloc; "set disable {}\n", number % 30)?,
        EditKind::Table if number % 2 == 1 => String::from_str(alloc, "table u add 11.0.0.0/8\n")?,
        EditKind::Table => String::from_str(alloc, "table u delete 11.0.0.0/8\n")?,
    })
}

/// The commands of all edits.
pub fn edits(alloc: Global, kind: EditKind) -> Result<String> {
    let mut script = String::new(alloc);
    for number in 1..EDITS + 1 {
        script.push_str(edit(alloc, kind, number)?.as_str())?;
    }
    Ok(script)
}
