/// An IPv6 address: its sixteen bytes as one number, the first byte the most significant (RFC 8200
/// section 3, RFC 4291 section 2).
#[derive(Clone, Copy, Debug, PartialEq, Eq, Hash)]
pub struct Addr6(pub u128);
