ghost use Rattle.std.specs.Prelude.{◌≡◌, IfOk};

use crate::{AddrSpec, Items, Opt, PortList, StateOpt};
use fw_base::OutOfMemory;
use std::alloc::Global;

/// What a rule asks of a packet (ipfw(8), "RULE BODY").
#[derive(Drop)]
pub struct Body {
    /// The version of IP.
    pub family: Family,
    /// The protocol by its number (RFC 791 section 3.1); 0 stands for every protocol.
    pub protocol: u8,
    pub source: AddrSpec,
    pub source_ports: Option<PortList>,
    pub destination: AddrSpec,
    pub destination_ports: Option<PortList>,
    pub options: Items<Opt>,
    /// `keep-state` or `limit`.
    pub state: Option<StateOpt>,
    /// Before which of the options `state` stands, for printing: at most their number, and 0 where
    /// there is no `state`.
    pub state_at: usize,
}

/// Which version of IP a rule asks for (ipfw(8), "RULE BODY").
#[derive(Clone, Copy, PartialEq, Eq)]
pub enum Family {
    /// `ip`, `all`, and each protocol that is named or numbered: both versions.
    AnyIp,
    /// `ip4` or `ipv4` (RFC 791).
    Four,
    /// `ip6` or `ipv6` (RFC 8200).
    Six,
}

impl Body {
    /// The same body, a second time.
    pub fn copy(&self, alloc: Global) -> Result<Body, OutOfMemory>
        ensures { IfOk result (λ body. body ≡ self.now) }
    {
        Ok(Body {
            family: self.family,
            protocol: self.protocol,
            source: self.source.copy(alloc)?,
            source_ports: copy_ports(alloc, &self.source_ports)?,
            destination: self.destination.copy(alloc)?,
            destination_ports: copy_ports(alloc, &self.destination_ports)?,
            options: copy_options(alloc, &self.options)?,
            state: copy_state(&self.state)?,
            state_at: self.state_at,
        })
    }
}

fn copy_state(state: &Option<StateOpt>) -> Result<Option<StateOpt>, OutOfMemory>
    ensures { IfOk result (λ copied. copied ≡ state.now) }
{
    match state {
        Some(option) => Ok(Some(option.clone()?)),
        None => Ok(None),
    }
}

fn copy_ports(alloc: Global, ports: &Option<PortList>) -> Result<Option<PortList>, OutOfMemory>
    ensures { IfOk result (λ copied. copied ≡ ports.now) }
{
    match ports {
        Some(list) => Ok(Some(list.copy(alloc)?)),
        None => Ok(None),
    }
}

fn copy_options(alloc: Global, options: &Items<Opt>) -> Result<Items<Opt>, OutOfMemory>
    ensures { IfOk result (λ copied. copied ≡ options.now) }
{
    let mut copied = Vec::new(alloc);
    for option in options.as_slice() {
        copied.push(option.clone()?)?;
    }
    Ok(Items::from_vec(copied))
}
