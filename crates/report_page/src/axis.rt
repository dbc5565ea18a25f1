use crate::column::Column;

/// The columns of a chart: the first second, and how many seconds each stands for.
#[derive(Clone, Copy)]
pub(crate) struct Axis<'a> {
    pub(crate) first: u64,
    pub(crate) seconds: u64,
    pub(crate) columns: &'a [Column],
}

impl Axis<'_> {
    /// The first second of the column in this place.
    pub(crate) fn second_at(&self, place: u64) -> u64 {
        self.first
            .saturating_add(place.saturating_mul(self.seconds))
    }
}
