/// Which record: the capture's lane, from 1, and the record of this capture, from 1.
#[derive(Clone, Copy)]
pub(crate) struct RecordName {
    pub(crate) lane: u16,
    pub(crate) at: u64,
}
