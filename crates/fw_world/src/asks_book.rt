ghost use Rattle.std.specs.Prelude.{ℕ, true, ◌≡◌, ◌+◌, IfOk, OnErr, OnOk};
ghost use Rattle.state_asks.specs.Flags.{HasKeptFlags};
ghost use Rattle.state_asks.specs.declared.op.Op.{Op};
ghost use Rattle.state_asks.specs.declared.reply.Reply.{Reply};
ghost use Rattle.eval_engine.specs.Standing.{InstallsRuleOf, is_reply_to};
ghost use Rattle.generation_store.specs.Published.{Published};

use fw_base::OutOfMemory;
use generation_store::Edition;
use state_asks::{Op, Reply};

/// Who asks the dynamic states for a lane, and lends the edition under which its packets are judged: the
/// book where one thread has it, or the way to it where it is shared.
pub trait AsksBook {
    // the edition under which packets are judged
    ghost edition: { Self → Published };
    // the lane is one that asks
    ghost serves: { Self → ℕ → Type 0 };
    // an ask of this lane for this record was entered with this reply
    ghost enters: { Self → ℕ → ℕ → Op → Reply → Self → Type 0 };
    // what an ask that wanted memory may leave
    ghost misses: { Self → Self → Type 0 };
    // a count that each ask raises
    ghost entered: { Self → ℕ };

    /// The edition under which packets are judged.
    fn edition(&self) -> &Edition
        ensures { result.now ≡ edition self.now };

    /// A count that each ask raises.
    fn entered(&self) -> u64
        ensures { result ≡ entered self.now };

    /// Asks for a record of the lane, and enters the ask with its reply.
    fn ask(&mut self, lane: u32, at: u64, op: &Op) -> Result<Reply, OutOfMemory>
        requires lane { serves self.old lane }
        requires rule { InstallsRuleOf (edition self.old).config.rules op.now }
        requires flags { HasKeptFlags op.now }
        ensures entered { IfOk result (λ reply. enters self.old lane at op.now reply self.new) }
        ensures counted { OnOk result (entered self.new ≡ entered self.old + 1) }
        ensures fits { IfOk result (λ reply.
            is_reply_to (edition self.old).config.rules op.now reply ≡ true) }
        ensures same { OnOk result (edition self.new ≡ edition self.old) }
        ensures lanes { OnOk result ((k : ℕ) → serves self.old k → serves self.new k) }
        ensures missed { OnErr result (misses self.old self.new) };
}
