ghost use Rattle.std.specs.Prelude.{◌≡◌, ◌<◌, false};
ghost use Rattle.eval_engine.specs.Place.{IsNumbered};
ghost use Rattle.eval_engine.specs.Standing.{is_searched, seen_by};
ghost use Rattle.eval_engine.specs.Trace as trace;

use state_asks::FlowName;

/// The flow names that were looked up.
#[derive(Clone, Copy)]
pub(crate) struct Searched {
    /// By the bits of a mask, those of the names' numbers.
    pub(crate) named: u64,
    /// `:any` was looked up.
    pub(crate) any: bool,
    /// A state was found: no more is looked up.
    pub(crate) found: bool,
}

impl Searched {
    /// No name was looked up.
    pub(crate) fn none() -> Searched
        ensures { seen_by result ≡ trace.no_names }
    {
        Searched {
            named: 0,
            any: false,
            found: false,
        }
    }

    /// A state is found.
    pub(crate) fn end(&mut self)
        ensures { seen_by self.new ≡ trace.Done }
    {
        self.found = true;
    }

    /// Whether the name is looked up: neither it nor `:any` was.
    pub(crate) fn is_due(&self, name: FlowName) -> bool
        requires { IsNumbered name }
        ensures { result ≡ trace.is_name_due (seen_by self.now) name }
    {
        !self.found && (!self.any && !self.has(name))
    }

    fn has(&self, name: FlowName) -> bool
        requires { IsNumbered name }
        ensures { result ≡ is_searched self.now name }
    {
        match name {
            FlowName::Any => self.any,
            FlowName::Named(number) => (self.named >> number) % 2 == 1,
        }
    }

    /// This name is looked up.
    pub(crate) fn add(&mut self, name: FlowName)
        requires { IsNumbered name }
        ensures { seen_by self.new ≡ trace.with_seen (seen_by self.old) name }
    {
        match name {
            FlowName::Any => self.any = true,
            FlowName::Named(number) => self.named |= 1 << number,
        }
    }
}
