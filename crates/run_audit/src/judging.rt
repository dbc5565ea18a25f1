ghost use Rattle.std.specs.Prelude.{◌≡◌, ◌<◌, ◌≤◌, ◌+◌, ◌++◌, ◌∷◌, [], IfOk, IfErr, OnOk, length, map, replicate, slice_set};
ghost use Rattle.fw_world.specs.Inputs.{Packet};
ghost use Rattle.fw_world.specs.Skips.{skipped_input};
ghost use Rattle.run_audit.specs.Audit.{no_docket};
ghost use Rattle.run_audit.specs.AuditFaults.{IfWrong};
ghost use Rattle.run_audit.specs.Entering.{EntersNext, FailsNext};
ghost use Rattle.run_audit.specs.JudgingValues.{entries_at, entries_of_each, judging_value, next_number};

use crate::AuditFault;
use crate::record_name::RecordName;
use crate::told::Told;
use counter_book::Tally;
use eval_engine::{Docket, DocketEntry};
use fw_base::{OutOfMemory, Port};
use fw_world::{Skipped, skipped_entry};
use ip6_headers::AnyIp;
use std::alloc::Global;

/// What was entered and counted for the records so far.
#[derive(Drop)]
pub(crate) struct Judging {
    /// For each lane, in the order of the lanes.
    pub(crate) dockets: Vec<Docket>,
    pub(crate) tallies: Vec<Tally>,
    /// The lane of the last record; 1 where there was none.
    pub(crate) lane: u32,
}

/// So many dockets with no entry.
fn new_dockets(alloc: Global, lanes: u32) -> Result<Vec<Docket>, OutOfMemory>
    ensures { IfOk result (λ dockets. dockets.items ≡ replicate lanes no_docket) }
{
    let mut dockets = Vec::with_capacity(alloc, lanes as usize)?;
    for _ in 0..lanes {
        dockets.push(Docket::new(alloc))?;
    }
    Ok(dockets)
}

/// So many tallies that counted nothing.
fn new_tallies(alloc: Global, lanes: u32) -> Result<Vec<Tally>, OutOfMemory>
    ensures { IfOk result (λ tallies. tallies.items ≡ replicate lanes []) }
{
    let mut tallies = Vec::with_capacity(alloc, lanes as usize)?;
    for _ in 0..lanes {
        tallies.push(Tally::new(alloc))?;
    }
    Ok(tallies)
}

/// Puts an entry behind those of the docket in this place.
fn enter_at(dockets: &mut Vec<Docket>, place: usize, entry: DocketEntry) -> Result<(), OutOfMemory>
    requires { place < length dockets.old.items }
    ensures entered { OnOk result (entries_of_each dockets.new.items
        ≡ slice_set (entries_of_each dockets.old.items) place
        (entries_at dockets.old.items place ++ entry ∷ [])) }
    ensures few { length dockets.new.items ≡ length dockets.old.items }
    ensures refused { OnOk result (map (λ docket. docket.refused) dockets.new.items
        ≡ map (λ docket. docket.refused) dockets.old.items) }
{
    dockets[place].push(entry)
}

/// The number of the next record of the docket in this place.
fn next_at(dockets: &[Docket], place: usize) -> u64
    requires { place < length dockets.now }
    ensures { result ≡ length (entries_at dockets.now place) + 1 }
{
    dockets[place].entries().len() as u64 + 1
}

impl Judging {
    /// That of so many lanes, with no record.
    pub(crate) fn new(alloc: Global, lanes: u32) -> Result<Judging, OutOfMemory>
        ensures dockets { IfOk result (λ judging. judging.dockets.items
            ≡ replicate lanes no_docket) }
        ensures tallies { IfOk result (λ judging. judging.tallies.items ≡ replicate lanes []) }
        ensures lane { IfOk result (λ judging. judging.lane ≡ 1) }
    {
        Ok(Judging {
            dockets: new_dockets(alloc, lanes)?,
            tallies: new_tallies(alloc, lanes)?,
            lane: 1,
        })
    }

    /// Which record of this lane is the next.
    fn next_name(&self, lane: u16) -> RecordName
        requires first { 1 ≤ lane }
        requires last { lane ≤ length self.now.dockets.items }
        ensures lane { result.lane ≡ lane }
        ensures at { result.at ≡ next_number self.now lane }
    {
        let at = next_at(&self.dockets, usize::from(lane) - 1);
        RecordName { lane, at }
    }

    /// Tests the next record of this lane, a packet that was captured there at that second, beside
    /// what the report tells.
    pub(crate) fn judge(
        &mut self,
        told: &Told,
        lane: u16,
        packet: &AnyIp<'_>,
        port: &Port,
        second: u32,
    ) -> Result<(), AuditFault>
        requires first { 1 ≤ lane }
        requires last { lane ≤ length self.old.dockets.items }
        requires paired { length self.old.tallies.items ≡ length self.old.dockets.items }
        ensures entered { OnOk result
            (EntersNext told.now lane (Packet packet.now port.now second) (judging_value self.old)
            (judging_value self.new)) }
        ensures wrong { IfErr result (λ fault. IfWrong fault (FailsNext told.now lane
            (Packet packet.now port.now second) (judging_value self.old))) }
        ensures lane { self.new.lane ≡ self.old.lane }
        ensures dockets { length self.new.dockets.items ≡ length self.old.dockets.items }
        ensures tallies { length self.new.tallies.items ≡ length self.old.tallies.items }
    {
        let name = self.next_name(lane);
        let place = usize::from(lane) - 1;
        match told.judge(name, packet, port, second, &mut self.tallies[place])? {
            Some(entry) => {
                enter_at(&mut self.dockets, place, entry)?;
                Ok(())
            }
            None => Err(AuditFault::Wrong {
                line: told.line_of(name),
            }),
        }
    }

    /// Tests the next record of this lane, which isn't judged.
    pub(crate) fn skip(
        &mut self,
        told: &Told,
        lane: u16,
        skipped: Skipped,
    ) -> Result<(), AuditFault>
        requires first { 1 ≤ lane }
        requires last { lane ≤ length self.old.dockets.items }
        requires paired { length self.old.tallies.items ≡ length self.old.dockets.items }
        ensures entered { OnOk result
            (EntersNext told.now lane (skipped_input skipped) (judging_value self.old)
            (judging_value self.new)) }
        ensures wrong { IfErr result (λ fault. IfWrong fault
            (FailsNext told.now lane (skipped_input skipped) (judging_value self.old))) }
        ensures lane { self.new.lane ≡ self.old.lane }
        ensures dockets { length self.new.dockets.items ≡ length self.old.dockets.items }
        ensures tallies { self.new.tallies.items ≡ self.old.tallies.items }
    {
        let name = self.next_name(lane);
        let entry = skipped_entry(skipped);
        if !told.is_line_of(name, &entry) {
            let line = told.line_of(name);
            return Err(AuditFault::Wrong { line });
        }
        enter_at(&mut self.dockets, usize::from(lane) - 1, entry)?;
        Ok(())
    }
}
