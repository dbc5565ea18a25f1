use fw_base::Port;
use generation_store::Edition;
use ip6_headers::AnyIp;
use std::alloc::Global;

/// What is evaluated, handed round as one: a packet that was captured there at that second, under the rules of an
/// edition.
#[derive(Clone, Copy)]
pub(crate) struct Question<'a, 'p> {
    pub(crate) edition: &'a Edition,
    pub(crate) packet: &'a AnyIp<'p>,
    pub(crate) port: &'a Port,
    pub(crate) second: u32,
    /// The memory of stories.
    pub(crate) alloc: Global,
}
