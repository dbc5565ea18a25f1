use fw_base::Name;

/// Which interfaces a rule asks for.
#[derive(Clone, Drop)]
pub enum Iface {
    /// Every interface.
    AnyIface,
    /// The interface of this name.
    Exact(Name),
    /// The interfaces whose names begin so, written `NAME*`.
    Begins(Name),
}
