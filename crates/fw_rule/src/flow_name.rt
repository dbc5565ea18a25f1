/// The name of a flow that is given none (ipfw(8), "STATEFUL FIREWALL").
pub const DEFAULT_FLOW: &[u8] = b"default";

/// What `:any` names: not one flow, but each. So no flow is called so.
pub const ANY_FLOW: &[u8] = b"any";
