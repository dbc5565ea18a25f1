ghost use Rattle.std.specs.Prelude.{◌≡◌, ℕ};
ghost use Rattle.std.specs.Arc.{arc_value};

use std::alloc::Allocator;
use std::sync::Arc;

/// A published value that has a number, as an edition of a configuration.
///
/// Contracts see the number, a tag, which is what the number was published with, and a name, which is
/// what the value is.
pub trait Numbered: Drop {
    type Tag;

    type Label;

    ghost number: { Self → ℕ };

    ghost tag: { Self → Self.Tag };

    ghost name: { Self → Self.Label };

    /// The number that it was published under.
    fn number(&self) -> u64
        ensures { result ≡ number self.now };
}

impl<E: Numbered, A: Allocator> Numbered for Arc<E, A> {
    type Tag = E::Tag;

    type Label = E::Label;

    ghost number = { λ shared. E.number (arc_value shared) };

    ghost tag = { λ shared. E.tag (arc_value shared) };

    ghost name = { λ shared. E.name (arc_value shared) };

    fn number(&self) -> u64 {
        (**self).number()
    }
}
