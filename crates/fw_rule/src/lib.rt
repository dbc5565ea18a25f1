//! Rules of the packet filter and the commands that change them (ipfw(8)), as values.
//!
//! Tests: none of its own.
#![tactic(auto)]

pub use action::Action;
pub use addr_item::AddrItem;
pub use addr_spec::AddrSpec;
pub use bits::has_bit;
pub use body::{Body, Family};
pub use command::Command;
pub use defaults::default_settings;
pub use flow_name::{ANY_FLOW, DEFAULT_FLOW};
pub use iface::Iface;
pub use items::Items;
pub use names::{FLAG_NAMES, OPTION_NAMES, UNREACH_NAMES};
pub use opt::Opt;
pub use port_list::PortList;
pub use rule::Rule;
pub use rule_draft::{RuleDraft, copy_body};
pub use setting::Setting;
pub use settings::{LONGEST_LIFETIME, MOST_STATES, Settings, USUAL_MOST_STATES};
pub use state_opt::{LimitMask, StateOpt};
pub use table_command::{Key, TableCommand, TableType};
pub use test::{Field, Test};
pub use type_set::TypeSet;

mod action;
mod addr_item;
mod addr_spec;
mod bits;
mod body;
mod command;
mod defaults;
mod flow_name;
mod iface;
mod items;
mod names;
mod opt;
mod port_list;
mod rule;
mod rule_draft;
mod setting;
mod settings;
mod state_opt;
mod table_command;
mod test;
mod type_set;
