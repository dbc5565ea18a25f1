ghost use Rattle.std.specs.Prelude.{◌≡◌, ◌≢◌, ℕ, ◌+◌, Bool, true, List, [], ◌∷◌, ◌++◌};

/// A value that many share and that learns of each publication, as the state object with its journal.
///
/// Contracts see its number, which is that of the last publication, its tag, which is the facts of that
/// publication, whether it has room for one more publication, and a list of items for each k from 0.
/// Facts have a number and an item.
pub trait Kept: Drop {
    type Facts;

    type Item;

    ghost number: { Self → ℕ };

    ghost tag: { Self → Self.Facts };

    ghost ready: { Self → Bool };

    ghost of: { Self → ℕ → List Self.Item };

    ghost facts_number: { Self.Facts → ℕ };

    ghost facts_item: { Self.Facts → Self.Item };

    /// The number of the last publication.
    fn current(&self) -> u64
        ensures { result ≡ number self.now };

    /// Whether it has room for one more publication.
    fn is_ready(&self) -> bool
        ensures { result ≡ ready self.now };

    /// Takes in a publication, the next one: its facts' item becomes the last of list 0, and every
    /// other list stays.
    fn publish(&mut self, facts: Self::Facts)
        requires room { ready self.old ≡ true }
        requires next { facts_number facts ≡ number self.old + 1 }
        ensures number { number self.new ≡ facts_number facts }
        ensures tag { tag self.new ≡ facts }
        ensures item { of self.new 0 ≡ of self.old 0 ++ facts_item facts ∷ [] }
        ensures others { (k : ℕ) → k ≢ 0 → of self.new k ≡ of self.old k };
}
