ghost use Rattle.std.specs.Prelude.{◌≡◌};

use crate::Test;
use std::alloc::AllocError;

/// One option of a rule's body: a test or, negated, its contrary.
#[derive(Drop)]
pub struct Opt {
    pub negated: bool,
    pub test: Test,
}

impl Clone for Opt {
    ghost is_clone = { λ option copy. copy ≡ option };

    fn clone(&self) -> Result<Opt, AllocError> {
        Ok(Opt {
            negated: self.negated,
            test: self.test.clone()?,
        })
    }
}
