ghost use Rattle.std.specs.Prelude.{◌≡◌, IfOk};
ghost use Rattle.std.specs.Option.{option_map};
ghost use Rattle.capture_tracks.specs.Commands as commands;
ghost use Rattle.capture_tracks.specs.Listings.{listing_in};

use fw_base::{Name, OutOfMemory};
use fw_rule::{Command, TableCommand};
use report_texts::Answer;
use rule_chain::Config;
use rule_edits::ApplyFault;

/// What a listing asks for (ipfw(8), `list` and `table NAME list`).
#[derive(Drop)]
pub enum Listing<'a> {
    /// The rules.
    Rules,
    /// The entries of this table.
    Entries(&'a Name),
}

/// The listing that a command of a table is, if it is one.
fn table_listing<'a>(name: &'a Name, command: &TableCommand) -> Option<Listing<'a>>
    ensures { option_map listing_in result ≡ commands.listing_of_table name.now command.now }
{
    match command {
        TableCommand::Create(_)
        | TableCommand::Destroy
        | TableCommand::Add(_, _)
        | TableCommand::Remove(_)
        | TableCommand::Clear
        | TableCommand::SwapWith(_) => None,
        TableCommand::ListEntries => Some(Listing::Entries(name)),
    }
}

/// The listing that a command is, if it is one; all others change the configuration.
pub fn listing_of(command: &Command) -> Option<Listing<'_>>
    ensures { option_map listing_in result ≡ commands.listing_of command.now }
{
    match command {
        Command::ListRules => Some(Listing::Rules),
        Command::Table(name, command) => table_listing(name, command),
        Command::Add(_)
        | Command::Delete(_)
        | Command::DeleteSet(_)
        | Command::Flush
        | Command::Zero(_)
        | Command::SetMask { .. }
        | Command::MoveSet { .. }
        | Command::MoveRule { .. }
        | Command::SwapSets { .. }
        | Command::Sysctl { .. }
        | Command::Local(_) => None,
    }
}

/// A second name with the same bytes.
fn copy_name(name: &Name) -> Result<Name, OutOfMemory>
    ensures { IfOk result (λ copy. copy ≡ name.now) }
{
    Ok(name.clone()?)
}

/// The answer to a listing by the edition of this number and configuration; one of no table is refused.
pub fn answer_listing(
    config: &Config,
    edition: u64,
    listing: Listing<'_>,
) -> Result<Answer, OutOfMemory>
    ensures { IfOk result (λ answer.
        answer ≡ commands.listed_answer config.now edition (listing_in listing.entry)) }
{
    match listing {
        Listing::Rules => Ok(Answer::Listed {
            edition,
            table: None,
        }),
        Listing::Entries(name) => {
            if config.table(name).is_some() {
                Ok(Answer::Listed {
                    edition,
                    table: Some(copy_name(name)?),
                })
            } else {
                Ok(Answer::Refused(ApplyFault::NoSuchTable))
            }
        }
    }
}
