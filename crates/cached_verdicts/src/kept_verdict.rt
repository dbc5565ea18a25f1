use eval_engine::Judgement;

/// What is kept for the packets of one key: their judgement, and the counter number of the rule that decides
/// them.
#[derive(Clone, Copy)]
pub struct KeptVerdict {
    pub judgement: Judgement,
    pub counter: u32,
}
