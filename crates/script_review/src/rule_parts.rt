use fw_base::Name;
use fw_rule::{AddrItem, AddrSpec, Body, Iface, Opt, RuleDraft, Test};

/// Whether `me` is among these addresses.
fn names_me(addresses: &AddrSpec) -> bool {
    for item in addresses.items.as_slice() {
        match item {
            AddrItem::Me => return true,
            AddrItem::Any
            | AddrItem::Net(_)
            | AddrItem::Net6(_)
            | AddrItem::InTable(_)
            | AddrItem::TableValue(_, _) => {}
        }
    }
    false
}

/// Whether a rule names `me`.
pub(crate) fn asks_for_me(draft: &RuleDraft) -> bool {
    match &draft.body {
        Some(body) => names_me(&body.source) || names_me(&body.destination),
        None => false,
    }
}

/// Whether these addresses name the table.
fn names_table(addresses: &AddrSpec, table: &Name) -> bool {
    for item in addresses.items.as_slice() {
        match item {
            AddrItem::InTable(name) | AddrItem::TableValue(name, _) => {
                if name == table {
                    return true;
                }
            }
            AddrItem::Any | AddrItem::Me | AddrItem::Net(_) | AddrItem::Net6(_) => {}
        }
    }
    false
}

/// Whether an option looks something up in the table.
fn looks_up(option: &Opt, table: &Name) -> bool {
    match &option.test {
        Test::Lookup(_, name) => name == table,
        _ => false,
    }
}

/// Whether a rule names the table.
pub(crate) fn asks_table(draft: &RuleDraft, table: &Name) -> bool {
    let Some(body) = &draft.body else {
        return false;
    };
    names_table(&body.source, table)
        || names_table(&body.destination, table)
        || body
            .options
            .as_slice()
            .iter()
            .any(|option| looks_up(option, table))
}

/// The interface that an option asks for, if it asks for one.
pub(crate) fn interface_of(option: &Opt) -> Option<&Iface> {
    match &option.test {
        Test::Recv(iface) | Test::Xmit(iface) | Test::Via(iface) => Some(iface),
        _ => None,
    }
}

/// Whether an interface of this name is asked for.
pub(crate) fn is_asked_for(iface: &Iface, name: &[u8]) -> bool {
    match iface {
        Iface::AnyIface => true,
        Iface::Exact(wanted) => wanted.bytes() == name,
        Iface::Begins(front) => name.starts_with(front.bytes()),
    }
}

/// Whether these addresses are all.
fn is_every_address(addresses: &AddrSpec) -> bool {
    match addresses.items.as_slice() {
        [AddrItem::Any] => !addresses.negated,
        _ => false,
    }
}

/// Whether a body holds of each packet.
pub(crate) fn holds_of_all(body: &Body) -> bool {
    body.family == fw_rule::Family::AnyIp
        && body.protocol == 0
        && is_every_address(&body.source)
        && is_every_address(&body.destination)
        && body.source_ports.is_none()
        && body.destination_ports.is_none()
        && body.options.as_slice().is_empty()
        && body.state.is_none()
}
