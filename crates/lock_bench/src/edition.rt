ghost use Rattle.std.specs.Prelude.{◌≡◌, IfOk, replicate, vec_len};

use fw_base::Numbered;
use std::alloc::{AllocError, Global};

/// An edition that is its number.
#[derive(Clone, Copy, Debug)]
pub struct Edition {
    pub number: u64,
}

impl Numbered for Edition {
    type Tag = u64;

    type Label = u64;

    ghost number = { λ e. e.number };

    ghost tag = { λ e. e.number };

    ghost name = { λ e. e.number };

    fn number(&self) -> u64 {
        self.number
    }
}

/// The editions that a lock is opened with: one of number 1 for each of so many processors.
pub fn first_editions(alloc: Global, processors: u32) -> Result<Vec<Edition>, AllocError>
    ensures copies { IfOk result (λ editions. editions.items
        ≡ replicate processors (record { number = 1 })) }
    ensures count { IfOk result (λ editions. vec_len editions ≡ processors) }
{
    Ok(vec![in alloc; Edition { number: 1 }; processors as usize]?)
}
