ghost use Rattle.std.specs.Prelude.{◌≡◌, true};
ghost use Rattle.rm_core.specs.CoreState.{after_check, token_answer, after_drain, phase_answer};

use crate::Heard;

/// What a processor's tracker says of it.
#[derive(Clone, Copy)]
pub enum Phase {
    /// Outside of every section.
    Out,
    /// The tracker is raised and the token not read yet: the section has begun.
    Raised,
    /// Inside a section that it entered with its token held.
    In,
}

/// A processor's read token.
#[derive(Clone, Copy)]
pub enum Token {
    /// The processor may enter.
    Held,
    /// A writer took it away. The number is that of the publication that it was taken away for.
    Revoked(u64),
}

/// What the lock knows of one processor.
#[derive(Clone, Copy)]
pub struct ProcessorState {
    /// Its tracker.
    pub phase: Phase,
    /// Its read token.
    pub token: Token,
    /// Whether the operator has taken its token away since the last publication.
    pub revoked: bool,
    /// Whether the operator has found it out since then.
    pub drained: bool,
}

impl ProcessorState {
    /// Out, with its token held.
    pub const IDLE: ProcessorState = ProcessorState {
        phase: Phase::Out,
        token: Token::Held,
        revoked: false,
        drained: false,
    };

    /// It reads its token, and is in if the token is held.
    pub(crate) fn check(&mut self) -> Heard
        ensures after { self.new ≡ after_check self.old }
        ensures heard { result ≡ token_answer self.old.token }
    {
        match self.token {
            Token::Held => {
                self.phase = Phase::In;
                Heard::Held
            }
            Token::Revoked(number) => Heard::Revoked(number),
        }
    }

    /// The operator takes its token away for the publication of that number.
    pub(crate) fn revoke(&mut self, number: u64)
        ensures { self.new ≡ record self.old { token = Token.Revoked number; revoked = true } }
    {
        self.token = Token::Revoked(number);
        self.revoked = true;
    }

    /// The operator looks whether it is out.
    pub(crate) fn drain(&mut self) -> Heard
        ensures after { self.new ≡ after_drain self.old }
        ensures heard { result ≡ phase_answer self.old.phase }
    {
        match self.phase {
            Phase::Out => {
                self.drained = true;
                Heard::Drained
            }
            Phase::Raised | Phase::In => Heard::NotOut,
        }
    }
}
