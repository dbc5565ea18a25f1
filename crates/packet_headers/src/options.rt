ghost use Rattle.std.specs.Prelude.{◌≡◌, [], ◌∷◌, MatchOption};
ghost use Rattle.std.specs.Iterator.{YieldsFirst, item_count};
ghost use Rattle.packet_headers.specs.Options.{option_types, has_option};

/// The end of the options.
const END: u8 = 0;
/// A byte between options.
const NO_OPERATION: u8 = 1;

/// Whether an option of that type is among the options, the header's bytes behind its first 20.
pub fn has_option(options: &[u8], kind: u8) -> bool
    ensures { result ≡ has_option kind options.now }
{
    OptionTypes { rest: options }.any(|found| found == kind)
}

/// The types of the options of an IPv4 header, in their order, types 0 and 1 among them. An option whose
/// length byte is below 2 or reaches past the header ends them, and isn't among them.
#[derive(Drop)]
struct OptionTypes<'a> {
    rest: &'a [u8],
}

impl Iterator for OptionTypes<'_> {
    type Item = u8;

    ghost next_gives = { YieldsFirst (λ s. option_types s.rest.now) };

    ghost remaining = { item_count (λ s. option_types s.rest.now) };

    fn next(&mut self) -> Option<u8> {
        let (kind, behind) = first_option(self.rest)?;
        self.rest = behind;
        Some(kind)
    }
}

/// The first option's type and the bytes behind that option; `None` where no option is there.
fn first_option(options: &[u8]) -> Option<(u8, &[u8])>
    ensures { MatchOption result (option_types options.now ≡ []) (λ first. option_types options.now
        ≡ first.0 ∷ option_types first.1.now) }
{
    match options {
        [END, ..] => Some((END, &options[..0])),
        [NO_OPERATION, behind @ ..] => Some((NO_OPERATION, behind)),
        [kind, length, ..] if 2 <= *length && usize::from(*length) <= options.len() => {
            Some((*kind, &options[usize::from(*length)..]))
        }
        _ => None,
    }
}
