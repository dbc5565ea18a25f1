ghost use Rattle.std.specs.Prelude.{◌≡◌, IfOk};

use crate::{Action, Body};
use fw_base::OutOfMemory;
use std::alloc::Global;

/// A rule as `add` names it, before it has an identity and a counter.
#[derive(Drop)]
pub struct RuleDraft {
    /// 0 to 65535; with none or 0 the list chooses one.
    pub number: Option<u16>,
    /// 0 to 31.
    pub set: u8,
    pub action: Action,
    /// `log`, with its amount; 0 where none is given.
    pub log: Option<u32>,
    /// None exactly for `CheckState`.
    pub body: Option<Body>,
}

impl RuleDraft {
    /// The same draft, a second time.
    pub fn copy(&self, alloc: Global) -> Result<RuleDraft, OutOfMemory>
        ensures { IfOk result (λ draft. draft ≡ self.now) }
    {
        Ok(RuleDraft {
            number: self.number,
            set: self.set,
            action: self.action.clone()?,
            log: self.log,
            body: copy_body(alloc, &self.body)?,
        })
    }
}

/// The same body, a second time, where there is one.
pub fn copy_body(alloc: Global, body: &Option<Body>) -> Result<Option<Body>, OutOfMemory>
    ensures { IfOk result (λ copied. copied ≡ body.now) }
{
    match body {
        Some(asked) => Ok(Some(asked.copy(alloc)?)),
        None => Ok(None),
    }
}
