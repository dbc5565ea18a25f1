ghost use Rattle.std.specs.Prelude.{◌≡◌, ◌≤◌, length, nat_eq};
ghost use Rattle.std.specs.List.{common_prefix_len};
ghost use Rattle.run_audit.specs.Comparison.{line_ends};

/// How many bytes two texts share at the front, byte by byte.
fn shared_bytes(first: &[u8], second: &[u8]) -> usize
    ensures value { result ≡ common_prefix_len nat_eq first.now second.now }
    ensures within { result ≤ length first.now }
    ensures within_second { result ≤ length second.now }
{
    for (at, byte) in first.iter().enumerate() {
        if at >= second.len() {
            return at;
        }
        if second[at] != *byte {
            return at;
        }
    }
    first.len()
}

/// How many bytes two texts share at the front. A text with which the second begins, as each does that is
/// written again of a report that is right, is compared at once.
pub(crate) fn shared_length(first: &[u8], second: &[u8]) -> usize
    ensures value { result ≡ common_prefix_len nat_eq first.now second.now }
    ensures within { result ≤ length first.now }
    ensures within_second { result ≤ length second.now }
{
    if second.starts_with(first) {
        return first.len();
    }
    shared_bytes(first, second)
}

/// How many lines end in a text.
pub(crate) fn line_ends(text: &[u8]) -> u64
    ensures value { result ≡ line_ends text.now }
    ensures within { result ≤ length text.now }
{
    let mut count: u64 = 0;
    for byte in text {
        count += u64::from(*byte == b'\n');
    }
    count
}
