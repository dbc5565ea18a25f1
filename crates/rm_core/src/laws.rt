//! What holds over every run of the lock's core: functions with no body, whose contracts are the laws.

ghost use Rattle.std.specs.Prelude.{◌≡◌, ◌≢◌, ◌<◌, ◌≤◌, ◌+◌, ◌^◌, ℕ, Some, List, ◌∷◌, [], ◌++◌, All};
ghost use Rattle.rm_core.specs.CoreState.{CoreState, opening, MayCome, after, step_answer, Safe, IsProcessor};
ghost use Rattle.rm_core.specs.Runs.{IsLockRun, after_all, number_regained, number_entered, publication_count};
ghost use Rattle.rm_core.specs.declared.event.Event.{Event};
ghost use Rattle.rm_core.specs.declared.event.Heard.{Heard};
ghost use Rattle.rm_core.specs.declared.processor_state.Phase.{Phase};
ghost use Rattle.rm_core.specs.declared.processor_state.Token.{Token};

/// Each allowed step leads from a safe state to a safe state, and so does every run from the opening.
pub fn states_are_safe()
    ensures step { (s : CoreState) (event : Event) → Safe s → MayCome s event
        → Safe (after s event) }
    ensures run { (n number : ℕ) (events : List Event) →
        IsLockRun (opening n number) events → Safe (after_all (opening n number) events) }
{}

/// The published number counts the publications, and fits 64 bits where it did at the opening.
pub fn number_counts_publications()
    ensures count { (s : CoreState) (events : List Event)
        → (after_all s events).number ≡ s.number + publication_count events }
    ensures fits { (n number : ℕ) (events : List Event) → 0 < n → number < 2 ^ 64
        → IsLockRun (opening n number) events →
        (after_all (opening n number) events).number < 2 ^ 64 }
{}

/// Readers share, and exclude a publication. A processor that is in came in, by a check that found its
/// token held, under the number that is published still. At a publication nobody is in. A processor
/// that a drain found out is not in at any moment from then until the publication.
pub fn publication_excludes_readers()
    ensures inside { (n number i : ℕ) (events : List Event) → IsLockRun (opening n number) events →
        IsProcessor (after_all (opening n number) events) i (λ p. p.phase ≡ Phase.In) →
        number_entered i number (opening n number) events
        ≡ (after_all (opening n number) events).number }
    ensures publication { (s : CoreState) → Safe s → MayCome s Event.Publish
        → All (λ p. p.phase ≢ Phase.In) s.processors }
    ensures drained { (n number i : ℕ) (before later : List Event)
        → IsLockRun (opening n number) (before ++ (Event.Drain i ∷ later)) →
        step_answer (after_all (opening n number) before) (Event.Drain i) ≡ Heard.Drained →
        All (λ event. event ≢ Event.Publish) later →
        IsProcessor (after_all (opening n number) (before ++ (Event.Drain i ∷ later))) i
        (λ p. p.phase ≢ Phase.In) }
{}

/// Whoever holds its token knows the published number: that of its last regain, or of the opening.
/// Whoever has its token revoked knows a smaller number than the one that it is revoked for. Whoever was
/// refused with a number and regains its token later finds at least this number published.
pub fn tokens_tell_the_number()
    ensures held { (n number i : ℕ) (events : List Event) → IsLockRun (opening n number) events →
        IsProcessor (after_all (opening n number) events) i (λ p. p.token ≡ Token.Held) →
        number_regained i number (opening n number) events
        ≡ (after_all (opening n number) events).number }
    ensures revoked { (n number i refusal : ℕ) (events : List Event)
        → IsLockRun (opening n number) events →
        IsProcessor (after_all (opening n number) events) i (λ p. p.token ≡ Token.Revoked refusal) →
        number_regained i number (opening n number) events < refusal }
    ensures refused { (n number i refusal : ℕ) (before between : List Event) →
        IsLockRun (opening n number)
        (before ++ (Event.Check i ∷ (between ++ (Event.Regain i ∷ [])))) →
        step_answer (after_all (opening n number) before) (Event.Check i) ≡ Heard.Revoked refusal →
        refusal ≤ (after_all (opening n number) (before ++ (Event.Check i ∷ between))).number }
{}

/// Who holds the lock behind holds it until it gives it back itself. So the writer and a processor that
/// regains its token exclude each other.
pub fn lock_behind_is_exclusive()
    ensures { (s : CoreState) (events : List Event) (holder : ℕ) → IsLockRun s events →
        All (λ event. event ≢ Event.GiveBack holder) events →
        s.holder ≡ Some holder → (after_all s events).holder ≡ Some holder }
{}
