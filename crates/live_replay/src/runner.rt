/// On which runtime captures are replayed, and which gate is told.
#[derive(Drop)]
pub struct Runner<'a, R, G> {
    pub rt: &'a R,
    pub gate: &'a G,
}
