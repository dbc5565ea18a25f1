ghost use Rattle.std.specs.Prelude.{◌≡◌, ◌<◌, ◌≤◌, ◌==◌, IfOk, filter, length};
ghost use Rattle.run_audit.specs.Numbering.{number_of, is_numbered, AreInOrderOf};
ghost use Rattle.std.specs.List.Sorted.{IsNonDecreasingBy, IsPartitionPoint};

use fw_base::OutOfMemory;

/// Something that is of the record of this number, by its place in a list.
#[derive(Clone, Copy)]
pub(crate) struct Numbered {
    pub(crate) at: u64,
    pub(crate) place: usize,
}

/// These by their numbers; those of one number stay in their order.
pub(crate) fn in_order(numbered: Vec<Numbered>) -> Result<Vec<Numbered>, OutOfMemory>
    ensures { IfOk result (λ ordered. AreInOrderOf numbered.items ordered.items) }
{
    let mut ordered = numbered;
    ordered.sort_by_key(|one| one.at)?;
    Ok(ordered)
}

/// How many stand before those of this number.
fn count_below(ordered: &[Numbered], at: u64) -> usize
    requires { IsNonDecreasingBy number_of ordered.now }
    ensures within { result ≤ length ordered.now }
    ensures point { IsPartitionPoint (λ one. number_of one < at) (λ one. at ≤ number_of one)
        ordered.now result }
{
    ordered.partition_point(|one| one.at < at)
}

/// How many stand before those of a greater number. They are passed one by one: each capture has one.
fn count_within(ordered: &[Numbered], at: u64) -> usize
    requires { IsNonDecreasingBy number_of ordered.now }
    ensures within { result ≤ length ordered.now }
    ensures point { IsPartitionPoint (λ one. number_of one ≤ at) (λ one. at < number_of one)
        ordered.now result }
{
    for (count, one) in ordered.iter().enumerate() {
        if at < one.at {
            return count;
        }
    }
    ordered.len()
}

/// Those of this number.
pub(crate) fn of_number(ordered: &[Numbered], at: u64) -> &[Numbered]
    requires { IsNonDecreasingBy number_of ordered.now }
    ensures { result.now ≡ filter (is_numbered at) ordered.now }
{
    let behind = &ordered[count_below(ordered, at)..];
    &behind[..count_within(behind, at)]
}
