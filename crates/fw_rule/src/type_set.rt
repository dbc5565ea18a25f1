ghost use Rattle.std.specs.Prelude.{◌≡◌, ◌==◌, ◌<◌, ◌||◌, ℕ, false};
ghost use Rattle.fw_rule.specs.TypeSet.{has_type, no_types, with_type};

/// A set of ICMPv6 types, 0 to 255 (RFC 4443 section 2.1): bit k of `low` is type k, and bit k of
/// `high` is type 128 + k.
#[derive(Clone, Copy)]
pub struct TypeSet {
    pub low: u128,
    pub high: u128,
}

impl TypeSet {
    /// The set of no types.
    pub fn empty() -> TypeSet
        ensures value { result ≡ no_types }
        ensures types { (k : ℕ) → k < 256 → has_type result k ≡ false }
    {
        TypeSet { low: 0, high: 0 }
    }

    /// The set with this type as well.
    pub fn with(self, number: u8) -> TypeSet
        ensures value { result ≡ with_type self number }
        ensures types { (k : ℕ) → k < 256 → has_type result k ≡ (k == number || has_type self k) }
    {
        if number < 128 {
            TypeSet {
                low: self.low | 1 << number,
                high: self.high,
            }
        } else {
            TypeSet {
                low: self.low,
                high: self.high | 1 << (number - 128),
            }
        }
    }

    /// Whether the type is in the set.
    pub fn contains(&self, number: u8) -> bool
        ensures { result ≡ has_type self.now number }
    {
        if number < 128 {
            (self.low >> number) % 2 == 1
        } else {
            (self.high >> (number - 128)) % 2 == 1
        }
    }
}
