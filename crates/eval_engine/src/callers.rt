ghost use Rattle.std.specs.Prelude.{◌≡◌, ◌<◌, ◌≤◌, [], ◌∷◌, length, nat_eq, MatchOption};
ghost use Rattle.eval_engine.specs.Callers.{innermost_first};

/// How many calls are open at once at most.
pub const MOST_CALLS: usize = 16;

/// The numbers of the rules whose calls are open.
#[derive(Clone, Copy)]
pub(crate) struct Callers {
    pub(crate) numbers: [u16; MOST_CALLS],
    pub(crate) depth: usize,
    ghost bounded: { depth ≤ 16 },
}

impl Callers {
    /// No call is open.
    #[tactic(auto, unfolding(crate::specs::Callers::innermost_first))]
    pub(crate) fn none() -> Callers
        ensures { innermost_first result.numbers result.depth ≡ [] }
    {
        Callers {
            numbers: [0; MOST_CALLS],
            depth: 0,
        }
    }

    /// Closes all calls.
    #[tactic(auto, unfolding(crate::specs::Callers::innermost_first))]
    pub(crate) fn close_all(&mut self)
        ensures { innermost_first self.new.numbers self.new.depth ≡ [] }
    {
        self.depth = 0;
    }

    /// Whether no call more may be made.
    #[tactic(auto, unfolding(crate::specs::Callers::innermost_first))]
    pub(crate) fn is_full(&self) -> bool
        ensures { result ≡ nat_eq (length (innermost_first self.now.numbers self.now.depth)) 16 }
    {
        self.depth == MOST_CALLS
    }

    /// A call by the rule of this number is opened.
    #[tactic(auto, unfolding(crate::specs::Callers::innermost_first))]
    pub(crate) fn push(&mut self, number: u16)
        requires { length (innermost_first self.old.numbers self.old.depth) < 16 }
        ensures { innermost_first self.new.numbers self.new.depth
            ≡ number ∷ innermost_first self.old.numbers self.old.depth }
    {
        self.numbers[self.depth] = number;
        self.depth += 1;
    }

    /// The last call is closed, and its rule's number answered; where none is open nothing changes.
    #[tactic(auto, unfolding(crate::specs::Callers::innermost_first))]
    pub(crate) fn pop(&mut self) -> Option<u16>
        ensures { MatchOption result
            ((innermost_first self.old.numbers self.old.depth ≡ []) × (self.new ≡ self.old))
            (λ number. innermost_first self.old.numbers self.old.depth
            ≡ number ∷ innermost_first self.new.numbers self.new.depth) }
    {
        if self.depth == 0 {
            return None;
        }
        self.depth -= 1;
        Some(self.numbers[self.depth])
    }
}
