ghost use Rattle.std.specs.Prelude.{◌≡◌, ◌+◌, ◌^◌, ◌<◌, ◌-◌, ◌∷◌, [], ◌++◌, true, false, IfOk, IfErr, OnOk, OnErr, length};
ghost use Rattle.std.specs.Arc.{arc_value};
ghost use Rattle.fw_rule.specs.WellFormed.{IsWellFormed};
ghost use Rattle.fw_world.specs.declared.commit_fault.CommitFault.TheVariants as refusal;
ghost use Rattle.generation_store.specs.Published.{Published, IsEdition};
ghost use Rattle.rule_edits.specs.Changing.{IsChanging};
ghost use Rattle.shared_world.specs.Commits.{Commits};
ghost use Rattle.shared_world.specs.DeskKept.{AreShares, IsPrepared, PublishesNext, VisitsDesk, desk_view, with_published};

use crate::preparing::{NextEdition, prepared};
use crate::shared_book::SharedBook;
use crate::{Desk, World};
use fw_base::OutOfMemory;
use fw_rule::Command;
use fw_world::CommitFault;
use generation_store::{Edition, Store};
use rm_lock::{Operator, RmLock};
use state_asks::Facts;
use std::alloc::Global;
use std::sync::{Arc, Wait};

/// Waits for the book and makes room in it for one publication.
fn ready_book<R: Wait>(
    rt: &R,
    lock: &RmLock<Arc<Edition>, SharedBook>,
    operator: Operator<Arc<Edition>, SharedBook>,
) -> (Operator<Arc<Edition>, SharedBook>, Result<(), OutOfMemory>)
    requires lock { operator.table_id ≡ lock.now }
    ensures lock { result.0.table_id ≡ lock.now }
    ensures visits { VisitsDesk operator.view result.0.view }
    ensures ready { OnOk result.1 (result.0.view.ready ≡ true) }
{
    let mut keeping = lock.open_book(rt, operator);
    let made = keeping.book().ready();
    (lock.shut_book(keeping), made)
}

/// Revokes all tokens, waits until no lane is in a section, and publishes the edition of these shares.
fn publish_shares<R: Wait>(
    rt: &R,
    lock: &RmLock<Arc<Edition>, SharedBook>,
    operator: Operator<Arc<Edition>, SharedBook>,
    shares: Vec<Arc<Edition>>,
    facts: Facts,
) -> Operator<Arc<Edition>, SharedBook>
    requires lock { operator.table_id ≡ lock.now }
    requires ready { operator.view.ready ≡ true }
    requires room { operator.view.number < 2 ^ 64 - 1 }
    requires next { (edition : Published) × AreShares edition operator.view.count shares.items
        × IsEdition edition × (edition.number ≡ operator.view.number + 1) × (facts ≡ edition.facts) }
    ensures lock { result.table_id ≡ lock.now }
    ensures published { (edition : Published) → AreShares edition operator.view.count shares.items
        → desk_view result.view ≡ with_published (desk_view operator.view) edition }
{
    let writing = lock.begin_write(rt, operator);
    let (operator, _) = lock.publish(writing, shares, facts);
    operator
}

impl World {
    /// Publishes the edition that was prepared, for which the store has room. Where the book has no room
    /// for it, nobody was held up.
    fn publish_prepared<R: Wait>(
        &self,
        rt: &R,
        operator: Operator<Arc<Edition>, SharedBook>,
        store: &mut Store,
        next: NextEdition,
    ) -> (Operator<Arc<Edition>, SharedBook>, Result<u64, CommitFault>)
        requires lock { operator.table_id ≡ self.now }
        requires next { IsPrepared operator.view next }
        requires room { store.old.ready ≡ true }
        ensures lock { result.0.table_id ≡ self.now }
        ensures published { IfOk result.1
            (PublishesNext operator.view result.0.view next store.old.editions store.new.editions) }
        ensures cause { IfErr result.1 (λ fault. fault ≡ refusal.OutOfMemory) }
        ensures unchanged { OnErr result.1
            (VisitsDesk operator.view result.0.view × (store.new.editions ≡ store.old.editions)) }
    {
        let (operator, made) = ready_book(rt, &self.lock, operator);
        if made.is_err() {
            return (operator, Err(CommitFault::OutOfMemory));
        }
        let NextEdition {
            number,
            edition,
            shares,
            facts,
        } = next;
        let operator = publish_shares(rt, &self.lock, operator, shares, facts);
        store.push(edition);
        (operator, Ok(number))
    }

    /// Publishes what the command makes of the last edition as the next one, and answers its number: the desk
    /// then stands for one command more. All memory is taken before a token is revoked; a command that is
    /// refused, and want of memory, leave all as it was. It waits for the book, for the lock behind, and for
    /// each lane to end its section.
    pub fn commit<R: Wait>(
        &self,
        rt: &R,
        alloc: Global,
        desk: Desk,
        command: &Command,
    ) -> (Desk, Result<u64, CommitFault>)
        requires desk { desk.world ≡ self.now }
        requires command { IsWellFormed command.now }
        requires changing { IsChanging command.now }
        ensures committed { Commits desk result.0 command.now result.1 }
    {
        let Desk {
            operator,
            mut store,
            lanes,
            room,
        } = desk;
        match prepared(alloc, &mut store, lanes, command) {
            Ok(next) => {
                let (operator, outcome) = self.publish_prepared(rt, operator, &mut store, next);
                let desk = Desk {
                    operator,
                    store,
                    lanes,
                    room,
                };
                (desk, outcome)
            }
            Err(fault) => {
                let desk = Desk {
                    operator,
                    store,
                    lanes,
                    room,
                };
                (desk, Err(fault))
            }
        }
    }
}
