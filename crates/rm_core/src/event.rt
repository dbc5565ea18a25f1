/// A single step of a processor or of the operator, the one writer. The number is a processor's, 1
/// for the first; where it names who takes or gives the lock behind, it may also be the operator's,
/// one past the last processor's. A step with another number is never allowed.
#[derive(Clone, Copy, Debug)]
pub enum Event {
    /// The processor raises its tracker.
    Raise(u32),
    /// The processor, its tracker raised, reads its token.
    Check(u32),
    /// The processor lowers its tracker, whether or not it came in.
    Lower(u32),
    /// A processor or the operator takes the lock behind.
    TakeBack(u32),
    /// The holder of the lock behind gives it back.
    GiveBack(u32),
    /// The processor, which holds the lock behind, takes its token again.
    Regain(u32),
    /// The operator takes a processor's token away, for the next publication.
    Revoke(u32),
    /// The operator looks whether a processor whose token it took away is out.
    Drain(u32),
    /// Anybody reads the published number.
    ReadNumber,
    /// The operator, which has drained all processors, publishes the next number.
    Publish,
}

/// What a step hears.
#[derive(Clone, Copy, Debug, PartialEq, Eq)]
pub enum Heard {
    /// After a check: the token is held, and the processor is in.
    Held,
    /// After a check: the token was revoked for the publication of that number.
    Revoked(u64),
    /// After a drain: the processor is out.
    Drained,
    /// After a drain: the processor is raised or in.
    NotOut,
    /// After a reading of the published number.
    Number(u64),
    /// After any other step.
    Nothing,
}
