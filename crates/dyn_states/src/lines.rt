ghost use Rattle.std.specs.Prelude.{◌≡◌, ℕ, ◌+◌, ◌<◌, ◌≤◌, Some, IfOk, if◌then◌else◌};
ghost use Rattle.dyn_states.specs.declared.lines.Line.{Line};
ghost use Rattle.dyn_states.specs.Lines as lines;

use crate::flows::reversed;
use fw_base::OutOfMemory;
use packet_headers::Flow;
use std::alloc::Global;
use std::collections::HashMap;

/// A flow in either direction, and a flow name: no two live states have one line.
#[derive(Clone, Copy, PartialEq, Eq, Hash)]
pub(crate) struct Line {
    flow: Flow,
    name: u8,
}

/// Whether the flow goes from the lower of its ends to the higher.
fn is_upward(flow: &Flow) -> bool
    ensures { result ≡ lines.is_upward flow.now }
{
    flow.source.0 < flow.destination.0
        || (flow.source.0 == flow.destination.0 && flow.source_port <= flow.destination_port)
}

/// The line of a flow, whichever way it goes, and a name.
pub(crate) fn line_of(flow: &Flow, name: u8) -> Line
    ensures { result ≡ lines.line_of flow.now name }
{
    if is_upward(flow) {
        Line { flow: *flow, name }
    } else {
        Line {
            flow: reversed(flow),
            name,
        }
    }
}

/// From a line to the place of its state. A place may be left over from a state that is gone.
#[derive(Drop)]
pub(crate) struct Lines {
    places: HashMap<Line, u32>,
    /// Above each name of a line.
    names_end: u32,
}

impl Lines {
    /// No line. The memory for so many is taken here.
    pub fn open(alloc: Global, room: usize) -> Result<Lines, OutOfMemory>
        ensures count { IfOk result (λ made. lines.line_count made ≡ 0) }
        ensures ends { IfOk result (λ made. made.names_end ≡ 0) }
        ensures room { IfOk result (λ made. room ≤ lines.line_room made) }
    {
        Ok(Lines {
            places: HashMap::with_capacity(alloc, room)?,
            names_end: 0,
        })
    }

    /// Where the line leads.
    #[tactic(auto, unfolding(crate::specs::Lines::place_of))]
    pub fn place_of(&self, line: &Line) -> Option<u32>
        ensures { result ≡ lines.place_of self.now line.now }
    {
        self.places.get(line).copied()
    }

    /// Lets the line lead to the place. It takes no memory.
    pub fn put(&mut self, line: Line, place: u32)
        requires { lines.line_count self.old < lines.line_room self.old }
        ensures places { (q : Line)
            → lines.place_of self.new q ≡ (if lines.same_line line q then Some place
            else lines.place_of self.old q) }
        ensures names { (line.name < self.new.names_end)
            × (self.old.names_end ≤ self.new.names_end) }
        ensures ends { self.old.names_end ≤ 256 → self.new.names_end ≤ 256 }
        ensures count { lines.line_count self.new ≤ lines.line_count self.old + 1 }
        ensures room { lines.line_room self.old ≤ lines.line_room self.new }
    {
        self.names_end = self.names_end.max(u32::from(line.name) + 1);
        if let Some(old) = self.places.get_mut(&line) {
            *old = place;
            return;
        }
        match self.places.insert(line, place) {
            Ok(_) => {}
            Err(_) => unreachable!(),
        }
    }

    /// Forgets all lines.
    pub fn clear(&mut self)
        ensures count { lines.line_count self.new ≡ 0 }
        ensures ends { self.new.names_end ≡ 0 }
        ensures room { lines.line_room self.old ≤ lines.line_room self.new }
    {
        self.places.clear();
        self.names_end = 0;
    }

    /// Above each name of a line.
    pub fn names_end(&self) -> u32
        ensures { result ≡ self.now.names_end }
    {
        self.names_end
    }
}
