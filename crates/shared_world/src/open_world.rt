use crate::{Desk, Lane, World};

/// A world that was opened, with its lanes in the order of their places, and its desk.
#[derive(Drop)]
pub struct OpenWorld {
    pub world: World,
    pub lanes: Vec<Lane>,
    pub desk: Desk,
}
