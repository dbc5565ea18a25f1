use fw_base::Name;

/// How a rule makes dynamic states, and the flow name that they get (ipfw(8), "STATEFUL FIREWALL").
#[derive(Clone, Drop)]
pub enum StateOpt {
    /// `keep-state`
    Keep(Name),
    /// `limit`: at most so many states, 1 to 65535, that agree in the masked part.
    Limit(LimitMask, u16, Name),
}

/// Which part of a flow a `limit` counts by.
#[derive(Clone, Copy, Debug, PartialEq, Eq)]
pub enum LimitMask {
    SrcAddr,
    SrcPort,
    DstAddr,
    DstPort,
}
