use crate::Name;

/// Which way a capture's packets passed the interface.
#[derive(Clone, Copy, Debug)]
pub enum Direction {
    In,
    Out,
}

/// Where a capture was taken: the direction and the interface's name.
#[derive(Drop)]
pub struct Port {
    pub direction: Direction,
    pub interface: Name,
}
