use crate::statement::{Place, Statement};
use crate::{Line, Script, ScriptFault, Step};
use fw_rule::Items;
use std::alloc::Global;

/// The commands of the lines that were read.
#[derive(Drop)]
pub(crate) struct ScriptDraft {
    pub before: Vec<Line>,
    pub live: Vec<Step>,
}

impl ScriptDraft {
    ghost use Rattle.std.specs.Prelude.{◌≡◌, [], OnOk, IfErr};
    ghost use Rattle.fw_command.specs.Drafts.{draft_with, draft_with_order, behind_draft};
    ghost use Rattle.fw_command.specs.DraftViews.{draft_view};

    /// Those of no lines.
    pub(crate) fn new(alloc: Global) -> ScriptDraft
        ensures { draft_view result ≡ record { before = []; live = [] } }
    {
        ScriptDraft {
            before: Vec::new(alloc),
            live: Vec::new(alloc),
        }
    }

    fn order(&mut self, live: bool, line: Line) -> Result<(), ScriptFault>
        ensures taken { OnOk result (draft_view self.new
            ≡ draft_with_order live line (draft_view self.old)) }
        ensures memory { IfErr result (λ e. e ≡ ScriptFault.OutOfMemory) }
    {
        if live {
            self.live.push(Step::Run(line))?;
        } else {
            self.before.push(line)?;
        }
        Ok(())
    }

    /// Takes what the line at this place says.
    pub(crate) fn take(&mut self, place: Place, statement: Statement) -> Result<(), ScriptFault>
        ensures taken { OnOk result (draft_view self.new
            ≡ draft_with place statement (draft_view self.old)) }
        ensures memory { IfErr result (λ e. e ≡ ScriptFault.OutOfMemory) }
    {
        match statement {
            Statement::Nothing | Statement::Live => Ok(()),
            Statement::Order(command) => {
                let line = place.line;
                self.order(place.live.is_some(), Line { line, command })
            }
            Statement::After { count, .. } => {
                self.live.push(Step::After(count))?;
                Ok(())
            }
        }
    }

    /// As a script, in the memory that they have; `live` stands on this line.
    pub(crate) fn script(self, live_at: Option<u32>) -> Script
        ensures { result ≡ record {
          before = self.before.items;
          live_at = live_at;
          live = self.live.items;
        } }
    {
        Script {
            before: Items::from_vec(self.before),
            live_at,
            live: Items::from_vec(self.live),
        }
    }
}
