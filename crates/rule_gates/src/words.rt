ghost use Rattle.std.specs.Prelude.{◌≡◌, ◌<◌};
ghost use Rattle.rule_gates.specs.Words as spec;

/// Thirty-two bits of the number; word 0 has the last ones.
pub(crate) fn word(place: u8, number: u128) -> u32
    requires { place < 4 }
    ensures { result ≡ spec.word place number }
{
    ((number >> (32 * place)) & u128::from(u32::MAX)) as u32
}

/// Its four words, word 0 first.
pub(crate) fn words_of(number: u128) -> [u32; 4]
    ensures { result ≡ spec.words_of number }
{
    [
        word(0, number),
        word(1, number),
        word(2, number),
        word(3, number),
    ]
}
