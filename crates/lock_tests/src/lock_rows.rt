mod beside;
pub(crate) mod calls;
pub(crate) mod one_processor;
mod stress;
mod tries;
mod two_processors;
