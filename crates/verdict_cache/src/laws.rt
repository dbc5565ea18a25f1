//! Laws of keys: functions with no body, whose contracts are the laws.
ghost use Rattle.std.specs.Prelude.{◌≡◌, true};
ghost use Rattle.verdict_cache.specs.declared.key.Key.{Key};
ghost use Rattle.verdict_cache.specs.Key.{same_key};
ghost use Rattle.verdict_cache.specs.EqualKeys.{EqualKeysHoldAlike, EqualKeysHaveOneFlow};

/// Two IPv4 packets with equal keys have the same answer from every rule body, whatever the tables, the
/// host's addresses and the port where they were taken.
pub fn equal_keys_hold_alike()
    ensures { EqualKeysHoldAlike }
{}

/// Two IPv4 packets with equal keys have the same flow, or neither has one: so both ask the states alike.
pub fn equal_keys_have_one_flow()
    ensures { EqualKeysHaveOneFlow }
{}

/// The cache takes two keys for one exactly where they are equal.
pub fn same_keys_are_equal()
    ensures equal { (a b : Key) → same_key a b ≡ true → a ≡ b }
    ensures itself { (a : Key) → same_key a a ≡ true }
{}
