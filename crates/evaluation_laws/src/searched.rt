ghost use Rattle.std.specs.Prelude.{◌≡◌};
ghost use Rattle.evaluation_laws.specs.Views.{is_searched, seen_by};
ghost use Rattle.eval_engine.specs.Trace as trace;

use state_asks::FlowName;

/// The flow names that were looked up.
#[derive(Clone, Copy)]
pub(crate) struct Searched {
    /// By their numbers.
    pub(crate) names: [bool; 256],
    /// `:any` was looked up.
    pub(crate) any: bool,
    /// A state was found: no more is looked up.
    pub(crate) found: bool,
}

impl Searched {
    /// No name was looked up.
    pub(crate) fn none() -> Searched
        ensures { seen_by result ≡ trace.no_names }
    {
        Searched {
            names: [false; 256],
            any: false,
            found: false,
        }
    }

    /// A state was found.
    pub(crate) fn done() -> Searched
        ensures { seen_by result ≡ trace.Done }
    {
        Searched {
            names: [false; 256],
            any: false,
            found: true,
        }
    }

    fn has(&self, name: FlowName) -> bool
        ensures { result ≡ is_searched self.now name }
    {
        match name {
            FlowName::Any => self.any,
            FlowName::Named(number) => self.names[usize::from(number)],
        }
    }

    /// Whether the name is looked up: neither it nor `:any` was.
    pub(crate) fn is_due(&self, name: FlowName) -> bool
        ensures { result ≡ trace.is_name_due (seen_by self.now) name }
    {
        !self.found && (!self.any && !self.has(name))
    }

    /// With this name.
    pub(crate) fn with(&self, name: FlowName) -> Searched
        ensures { seen_by result ≡ trace.with_seen (seen_by self.now) name }
    {
        let mut searched = *self;
        match name {
            FlowName::Any => searched.any = true,
            FlowName::Named(number) => searched.names[usize::from(number)] = true,
        }
        searched
    }
}
