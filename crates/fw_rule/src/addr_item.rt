ghost use Rattle.std.specs.Prelude.{◌≡◌};

use fw_base::{Name, Prefix, Prefix6};
use std::alloc::AllocError;

/// One element of a list of addresses.
#[derive(Drop)]
pub enum AddrItem {
    /// Every address.
    Any,
    /// The host's own addresses.
    Me,
    /// The addresses of a prefix; a single address is a prefix of 32.
    Net(Prefix),
    /// The addresses of an IPv6 prefix; a single address is a prefix of 128.
    Net6(Prefix6),
    /// The addresses for which the table has a value.
    InTable(Name),
    /// The addresses for which the table has this value.
    TableValue(Name, u32),
}

impl Clone for AddrItem {
    ghost is_clone = { λ item copy. copy ≡ item };

    fn clone(&self) -> Result<AddrItem, AllocError> {
        Ok(match self {
            AddrItem::Any => AddrItem::Any,
            AddrItem::Me => AddrItem::Me,
            AddrItem::Net(prefix) => AddrItem::Net(*prefix),
            AddrItem::Net6(prefix) => AddrItem::Net6(*prefix),
            AddrItem::InTable(table) => AddrItem::InTable(table.clone()?),
            AddrItem::TableValue(table, value) => AddrItem::TableValue(table.clone()?, *value),
        })
    }
}
