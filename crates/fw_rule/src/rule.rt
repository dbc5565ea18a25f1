use crate::{Action, Body};

/// A rule of a list (ipfw(8), "RULE FORMAT").
#[derive(Drop)]
pub struct Rule {
    /// 1 to 65535.
    pub number: u16,
    /// 0 to 31.
    pub set: u8,
    /// The rule's identity: the place of its `add` among all, from 1; 0 for rule 65535.
    pub id: u32,
    /// The number under which its packets and bytes are counted.
    pub counter: u32,
    pub action: Action,
    /// `log`, with its amount; 0 where none is given.
    pub log: Option<u32>,
    /// None exactly for `CheckState`.
    pub body: Option<Body>,
}
