use crate::{SerialDesk, SerialLane, SerialWorld};

/// A serial world that was opened, with its lanes in the order of their places, and its desk.
#[derive(Drop)]
pub struct OpenSerial {
    pub world: SerialWorld,
    pub lanes: Vec<SerialLane>,
    pub desk: SerialDesk,
}
