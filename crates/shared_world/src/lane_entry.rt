use crate::{Inside, Lane};

/// What a lane is answered that tries to begin a section.
#[derive(Drop)]
pub enum LaneEntry {
    /// It is in.
    In(Inside),
    /// It is refused, since its token is revoked for the publication of the edition of this number.
    Revoked(Lane, u64),
}
