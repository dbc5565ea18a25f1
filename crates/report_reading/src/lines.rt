ghost use Rattle.std.specs.Prelude.{◌≡◌, ◌<◌, ◌∷◌, ◌==◌, length, position, IfSome, MatchOption, []};
ghost use Rattle.report_reading.specs.Lines.{lines_with_ends};

fn line_end(text: &[u8]) -> Option<usize>
    ensures found { result ≡ position (λ byte. byte == 10) text.now }
    ensures within { IfSome result (λ at. at < length text.now) }
{
    text.iter().position(|byte| *byte == b'\n')
}

/// The first line of a text, with the byte 10 that ends it, and the text behind it; `None` where the text is
/// empty. A text without a byte 10 is one line.
#[tactic(auto, using(crate::proofs::LineEnds::lines_at, crate::proofs::LineEnds::lines_of_one))]
pub fn next_line(text: &[u8]) -> Option<(&[u8], &[u8])>
    ensures lines { MatchOption result (text.now ≡ [])
        (λ next. lines_with_ends text.now ≡ next.0.now ∷ lines_with_ends next.1.now) }
    ensures shorter { IfSome result (λ next. length next.1.now < length text.now) }
{
    if text.is_empty() {
        return None;
    }
    match line_end(text) {
        Some(at) => Some((&text[..at + 1], &text[at + 1..])),
        None => Some((text, &[])),
    }
}
