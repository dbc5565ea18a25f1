use fw_world::Record;
use report_texts::Ends;

/// What a replay comes to.
#[derive(Drop)]
pub struct Replayed<S> {
    pub record: Record,
    /// How the captures ended, in their order, and the answers to the lines behind `live`.
    pub ends: Ends,
    /// The captures' sources, in their order.
    pub sources: Vec<S>,
}
