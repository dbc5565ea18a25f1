ghost use Rattle.std.specs.Prelude.{◌≡◌, ◌==◌, ◌<◌, ◌≤◌, ◌||◌, ◌&&◌, not, IfSome, position, length, unwrap_or, take, drop, nat_lt, if◌then◌else◌, Some, None, false, ◌∷◌, ◌+◌};
ghost use Rattle.std.specs.List.{position_or_len};
ghost use Rattle.std.specs.Option.{option_copied};
ghost use Rattle.ipfw_parser.specs.Addresses as spec;
ghost use Rattle.ipfw_parser.specs.Addresses6.{colon_parts, colon_parts_left};
ghost use Rattle.ipfw_parser.specs.Lists as spec_lists;
ghost use Rattle.ipfw_parser.specs.Lists.{elements, elements_left, elements_outside, elements_outside_left, element_end};

fn find_byte(text: &[u8], wanted: u8) -> Option<usize>
    ensures found { result ≡ position (λ b. b == wanted) text.now }
    ensures within { IfSome result (λ k. k < length text.now) }
{
    text.iter().position(|byte| *byte == wanted)
}

/// The part of the text before the first such byte, and the part behind it where it is there.
#[tactic(auto, unfolding(crate::specs::Addresses::part_before, crate::specs::Addresses::part_behind))]
pub fn cut(text: &[u8], at: u8) -> (&[u8], Option<&[u8]>)
    ensures front { result.0.now ≡ spec.part_before at text.now }
    ensures rest { option_copied result.1 ≡ spec.part_behind at text.now }
{
    match find_byte(text, at) {
        Some(place) => (&text[..place], Some(&text[place + 1..])),
        None => (text, None),
    }
}

fn find_part_end(text: &[u8]) -> Option<usize>
    ensures found { result ≡ position spec.ends_part text.now }
    ensures within { IfSome result (λ k. k < length text.now) }
{
    text.iter().position(|byte| *byte == b',' || *byte == b')')
}

/// How long the part before the first comma or closing parenthesis is.
#[tactic(auto, unfolding(crate::specs::Addresses::part_len))]
pub(crate) fn part_len(text: &[u8]) -> usize
    ensures len { result ≡ spec.part_len text.now }
    ensures within { result ≤ length text.now }
{
    match find_part_end(text) {
        Some(end) => end,
        None => text.len(),
    }
}

fn parts(byte: u8, inside: bool) -> bool
    ensures { result ≡ spec_lists.parts_elements byte inside }
{
    byte == b',' && !inside
}

fn inside_after(inside: bool, byte: u8) -> bool
    ensures { result ≡ spec_lists.inside_after inside byte }
{
    if byte == b'(' {
        true
    } else if byte == b')' {
        false
    } else {
        inside
    }
}

/// Where the first element ends: at the first comma outside parentheses, or at the text's end.
fn element_len(text: &[u8]) -> usize
    ensures len { result ≡ element_end false text.now }
    ensures within { result ≤ length text.now }
{
    let mut inside = false;
    for (at, byte) in text.iter().enumerate() {
        if parts(*byte, inside) {
            return at;
        }
        inside = inside_after(inside, *byte);
    }
    text.len()
}

fn split_behind(text: &[u8], end: usize) -> (&[u8], Option<&[u8]>)
    requires { end ≤ length text.now }
    ensures front { result.0.now ≡ take end text.now }
    ensures rest { option_copied result.1
        ≡ (if nat_lt end (length text.now) then Some (drop (end + 1) text.now) else None) }
    ensures shorter { IfSome result.1 (λ rest. length rest.now < length text.now) }
{
    if end < text.len() {
        (&text[..end], Some(&text[end + 1..]))
    } else {
        (text, None)
    }
}

/// The first element of a list of addresses, and the elements behind it where there are any. A comma in
/// parentheses parts no elements.
pub(crate) fn first_address(text: &[u8]) -> (&[u8], Option<&[u8]>)
    ensures elements { elements_outside false text.now
        ≡ result.0.now ∷ elements_outside_left (option_copied result.1) }
    ensures shorter { IfSome result.1 (λ rest. length rest.now < length text.now) }
{
    split_behind(text, element_len(text))
}

fn place_or_end(text: &[u8], wanted: u8) -> usize
    ensures len { result ≡ position_or_len (λ b. b == wanted) text.now }
    ensures within { result ≤ length text.now }
{
    match find_byte(text, wanted) {
        Some(place) => place,
        None => text.len(),
    }
}

/// The first element of a list, and the elements behind it where there are any.
pub(crate) fn first_element(text: &[u8]) -> (&[u8], Option<&[u8]>)
    ensures elements { elements text.now ≡ result.0.now ∷ elements_left (option_copied result.1) }
    ensures shorter { IfSome result.1 (λ rest. length rest.now < length text.now) }
{
    split_behind(text, place_or_end(text, b','))
}

/// The first group of an IPv6 address, and what stands behind its colon where there is one.
pub(crate) fn first_group(text: &[u8]) -> (&[u8], Option<&[u8]>)
    ensures groups { colon_parts text.now
        ≡ result.0.now ∷ colon_parts_left (option_copied result.1) }
    ensures shorter { IfSome result.1 (λ rest. length rest.now < length text.now) }
{
    split_behind(text, place_or_end(text, b':'))
}
