ghost use Rattle.std.specs.Prelude.{Some};
ghost use Rattle.fw_base.specs.Addr.{address_text};

use std::fmt;

/// An IPv4 address: its four bytes as one number, the first byte the most significant (RFC 791
/// section 3.1).
#[derive(Clone, Copy, Debug, PartialEq, Eq, PartialOrd, Ord, Hash)]
pub struct Addr(pub u32);

impl fmt::Display for Addr {
    ghost output = { λ address. Some (address_text address.0) };

    #[tactic(auto, unfolding(crate::specs::Addr::address_text))]
    fn fmt<W: fmt::Write>(&self, f: &mut fmt::Formatter<W>) -> fmt::Result {
        let [a, b, c, d] = self.0.to_be_bytes();
        write!(f, "{a}.{b}.{c}.{d}")
    }
}
