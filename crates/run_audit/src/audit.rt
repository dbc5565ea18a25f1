ghost use Rattle.std.specs.Prelude.{◌≡◌, ◌≤◌, ℕ, None, Some, Err, [], IfOk, IfErr, List, length, replicate};
ghost use Rattle.std.specs.List.{AllByRecursion};
ghost use Rattle.fw_command.specs.WellFormed.{IsStepInRange};
ghost use Rattle.fw_command.specs.declared.script.Step.{Step};
ghost use Rattle.fw_world.specs.Inputs.{Input, Packet};
ghost use Rattle.fw_world.specs.Skips.{skipped_input};
ghost use Rattle.rule_chain.specs.Configuration.{Configuration};
ghost use Rattle.run_audit.specs.Audit.{FailsAtOpening, IsAuditOf, IsFirstWrong, IsRebuilt, Meets};
ghost use Rattle.run_audit.specs.AuditAnswers.{answer_of};
ghost use Rattle.run_audit.specs.AuditFaults.{IfWrong};
ghost use Rattle.run_audit.specs.declared.audit_fault.AuditFault.{AuditFault};

use crate::closing::rebuilt_of;
use crate::judging::Judging;
use crate::opening::opened_report;
use crate::told::Told;
use crate::{AuditFault, Rebuilt};
use fw_base::{MOST_CAPTURES, Port};
use fw_command::Step;
use fw_world::Skipped;
use ip6_headers::AnyIp;
use report_texts::LineAnswer;
use rule_chain::Config;
use std::alloc::Global;
use std::marker::Model;

/// The audit of a report beside its script and its captures.
#[derive(Drop)]
pub struct Audit {
    report: Vec<u8>,
    told: Told,
    answers: Vec<LineAnswer>,
    judging: Judging,
    fault: Option<AuditFault>,
}

impl Model for Audit {
    ghost use Rattle.std.specs.Prelude.{◌≡◌, ◌≤◌, length, map};
    ghost use Rattle.run_audit.specs.AskNames.{names_in, names_told};
    ghost use Rattle.run_audit.specs.Audit.{AuditValue, told_value};
    ghost use Rattle.run_audit.specs.ToldReport.{lines_told};

    ghost Value = { AuditValue };

    ghost view = { λ a. record {
      report = a.report.items;
      editions = a.told.editions;
      answers = a.answers.items;
      journal = a.told.journal;
      dockets = map (λ docket. docket.entries) a.judging.dockets.items;
      tallies = a.judging.tallies.items;
      lane = a.judging.lane;
      fault = a.fault;
    } };

    ghost invariant = { λ a.
        (a.told ≡ told_value a.told.editions a.told.journal a.report.items)
        × (1 ≤ length a.told.editions)
        × (length a.judging.tallies.items ≡ length a.judging.dockets.items)
        × (length a.judging.dockets.items ≤ 16)
        × (names_in a.told.journal.entries ≡ names_told (lines_told a.report.items)) };
}

impl Audit {
    /// Reads a report, 1,073,741,824 bytes at most, beside the configuration of edition 1 and the
    /// steps behind `live` of a script, for 1 to 16 captures: the form of its lines first, and then
    /// its journal. It fails exactly where one of them is wrong, with the first such line, or for
    /// want of memory.
    pub fn open(
        alloc: Global,
        report: Vec<u8>,
        config: Config,
        steps: &[Step],
        captures: u32,
    ) -> Result<Audit, AuditFault>
        requires some { 1 ≤ captures }
        requires few { captures ≤ MOST_CAPTURES }
        requires steps { AllByRecursion IsStepInRange steps.now }
        ensures opened { IfOk result
            (IsAuditOf config steps.now report.items (replicate captures [])) }
        ensures fault { IfOk result (λ audit. audit.fault ≡ None) }
        ensures captures { IfOk result (λ audit. length audit.dockets ≡ captures) }
        ensures lane { IfOk result (λ audit. audit.lane ≡ 1) }
        ensures wrong { IfErr result (λ fault. IfWrong fault (FailsAtOpening config steps.now
            report.items)) }
    {
        let (told, answers) = opened_report(alloc, &report, config, steps)?;
        let told = Told::new(alloc, told)?;
        Ok(Audit {
            report,
            told,
            answers,
            judging: Judging::new(alloc, captures)?,
            fault: None,
        })
    }

    /// Tests the next record of this lane, a packet that was captured there at that second, beside
    /// the report. A lane is never below that of the record before. After a fault each call answers
    /// the same.
    pub fn judge(
        &mut self,
        lane: u32,
        packet: &AnyIp<'_>,
        port: &Port,
        second: u32,
    ) -> Result<(), AuditFault>
        requires first { 1 ≤ lane }
        requires last { lane ≤ length self.old.dockets }
        requires ordered { self.old.lane ≤ lane }
        ensures met { (config : Configuration) (steps : List Step) (report : List ℕ)
            → Meets config steps report lane (Packet packet.now port.now second) self.old self.new }
        ensures answer { result ≡ answer_of self.new.fault }
        ensures kept { (fault : AuditFault) → self.old.fault ≡ Some fault
            → self.new ≡ record self.old { lane = lane } }
        ensures captures { length self.new.dockets ≡ length self.old.dockets }
        ensures lane { self.new.lane ≡ lane }
    {
        self.judging.lane = lane;
        if let Some(fault) = self.fault {
            return Err(fault);
        }
        match self
            .judging
            .judge(&self.told, lane as u16, packet, port, second)
        {
            Ok(()) => Ok(()),
            Err(fault) => {
                self.fault = Some(fault);
                Err(fault)
            }
        }
    }

    /// Tests the next record of this lane, which isn't judged.
    pub fn skip(&mut self, lane: u32, skipped: Skipped) -> Result<(), AuditFault>
        requires first { 1 ≤ lane }
        requires last { lane ≤ length self.old.dockets }
        requires ordered { self.old.lane ≤ lane }
        ensures met { (config : Configuration) (steps : List Step) (report : List ℕ)
            → Meets config steps report lane (skipped_input skipped) self.old self.new }
        ensures answer { result ≡ answer_of self.new.fault }
        ensures kept { (fault : AuditFault) → self.old.fault ≡ Some fault
            → self.new ≡ record self.old { lane = lane } }
        ensures captures { length self.new.dockets ≡ length self.old.dockets }
        ensures lane { self.new.lane ≡ lane }
    {
        self.judging.lane = lane;
        if let Some(fault) = self.fault {
            return Err(fault);
        }
        match self.judging.skip(&self.told, lane as u16, skipped) {
            Ok(()) => Ok(()),
            Err(fault) => {
                self.fault = Some(fault);
                Err(fault)
            }
        }
    }

    /// The fault that it came to, if it did.
    pub fn fault(&self) -> Option<AuditFault>
        ensures { result ≡ self.now.fault }
    {
        self.fault
    }

    /// Tests what is left of the report behind the records, and gives the record that it is of,
    /// which has an edition.
    pub fn close(self) -> Result<Rebuilt, AuditFault>
        ensures rebuilt { IfOk result (λ rebuilt. (config : Configuration) (steps : List Step)
            (report : List ℕ) (inputs : List (List Input))
            → IsAuditOf config steps report inputs self
            → IsRebuilt config steps report inputs rebuilt) }
        ensures some { IfOk result (λ rebuilt. 1 ≤ length rebuilt.editions.items) }
        ensures wrong { IfErr result (λ fault. IfWrong fault (λ line. (config : Configuration)
            (steps : List Step) (report : List ℕ) (inputs : List (List Input))
            → IsAuditOf config steps report inputs self
            → IsFirstWrong config steps report inputs line)) }
        ensures kept { (fault : AuditFault) → self.fault ≡ Some fault → result ≡ Err fault }
    {
        match self.fault {
            Some(fault) => Err(fault),
            None => rebuilt_of(self.report, self.told, self.answers, self.judging),
        }
    }
}
