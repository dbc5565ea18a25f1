use super::numbers::Numbers;
use super::packets::{address, address6, port, protocol};
use fw_base::{Addr, Addr6, Name, PortRange, Prefix, Prefix6};
use fw_rule::{Action, AddrItem, AddrSpec, Body, Family, Items, PortList, Rule, StateOpt};
use std::alloc::Global;
use std::sync::Arc;
use std::test::Fail;

fn net(numbers: &mut Numbers) -> AddrItem {
    match Prefix::new(Addr(address(numbers)), numbers.below(33) as u8) {
        Some(prefix) => AddrItem::Net(prefix),
        None => AddrItem::Any,
    }
}

fn net6(numbers: &mut Numbers) -> AddrItem {
    match Prefix6::new(Addr6(address6(numbers)), numbers.below(129) as u8) {
        Some(prefix) => AddrItem::Net6(prefix),
        None => AddrItem::Any,
    }
}

fn item(alloc: Global, numbers: &mut Numbers) -> Result<AddrItem, Fail> {
    Ok(match numbers.below(8) {
        0 => AddrItem::Any,
        1 => AddrItem::Me,
        2 => AddrItem::InTable(Name::new(alloc, b"t")?),
        3 | 4 => net6(numbers),
        _ => net(numbers),
    })
}

fn addresses(alloc: Global, numbers: &mut Numbers) -> Result<AddrSpec, Fail> {
    let mut items = Vec::new(alloc);
    items.push(item(alloc, numbers)?)?;
    if numbers.once_in(5) {
        items.push(item(alloc, numbers)?)?;
    }
    Ok(AddrSpec {
        negated: numbers.once_in(5),
        items: Items::from_vec(items),
    })
}

fn push_range(ranges: &mut Vec<PortRange>, numbers: &mut Numbers) -> Result<(), Fail> {
    let (one, other) = (port(numbers), port(numbers));
    if let Some(range) = PortRange::new(one.min(other), one.max(other)) {
        ranges.push(range)?;
    }
    Ok(())
}

fn ports(alloc: Global, numbers: &mut Numbers) -> Result<Option<PortList>, Fail> {
    if !numbers.once_in(3) {
        return Ok(None);
    }
    let mut ranges = Vec::new(alloc);
    push_range(&mut ranges, numbers)?;
    if numbers.once_in(5) {
        push_range(&mut ranges, numbers)?;
    }
    Ok(Some(PortList {
        negated: numbers.once_in(5),
        ranges: Items::from_vec(ranges),
    }))
}

fn family(numbers: &mut Numbers) -> Family {
    match numbers.below(6) {
        0 => Family::Four,
        1 => Family::Six,
        _ => Family::AnyIp,
    }
}

fn state(alloc: Global, numbers: &mut Numbers) -> Result<Option<StateOpt>, Fail> {
    if numbers.once_in(10) {
        Ok(Some(StateOpt::Keep(Name::new(alloc, b"n")?)))
    } else {
        Ok(None)
    }
}

fn body(alloc: Global, numbers: &mut Numbers) -> Result<Body, Fail> {
    let protocol = if numbers.once_in(2) {
        protocol(numbers)
    } else {
        0
    };
    Ok(Body {
        family: family(numbers),
        protocol,
        source: addresses(alloc, numbers)?,
        source_ports: ports(alloc, numbers)?,
        destination: addresses(alloc, numbers)?,
        destination_ports: ports(alloc, numbers)?,
        options: Items::from_vec(Vec::new(alloc)),
        state: state(alloc, numbers)?,
        state_at: 0,
    })
}

fn rule(alloc: Global, numbers: &mut Numbers) -> Result<Rule, Fail> {
    let check = numbers.once_in(20);
    let body = if check {
        None
    } else {
        Some(body(alloc, numbers)?)
    };
    Ok(Rule {
        number: 1,
        set: 0,
        id: 0,
        counter: 0,
        action: if check {
            Action::CheckState(None)
        } else {
            Action::Count
        },
        log: None,
        body,
    })
}

/// A list of rules, longer than what is searched before hulls are asked.
pub fn random_rules(alloc: Global, numbers: &mut Numbers) -> Result<Vec<Arc<Rule>>, Fail> {
    let mut rules = Vec::new(alloc);
    for _ in 0..150 {
        rules.push(Arc::new(alloc, rule(alloc, numbers)?)?)?;
    }
    Ok(rules)
}
