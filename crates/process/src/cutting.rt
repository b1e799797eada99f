//! A text cut at bytes of one kind.
ghost use Rattle.std.specs.Prelude.{◌≡◌, ◌==◌, ◌<◌, ◌∷◌, [], length, position, IfSome, MatchOption};
ghost use Rattle.std.specs.List.{slice_split};

/// The text before the first such byte, and that after it; where there is none, all of the text.
#[tactic(auto, using(po_syntax::specs::Facts::Cuts::cut_none, po_syntax::specs::Facts::Cuts::cut_found))]
pub(crate) fn cut(text: &[u8], end: u8) -> (&[u8], Option<&[u8]>)
    ensures cut { MatchOption result.1 (slice_split (λ byte. byte == end) text.now ≡ result.0.now ∷ [])
        (λ rest. slice_split (λ byte. byte == end) text.now
        ≡ result.0.now ∷ slice_split (λ byte. byte == end) rest.now) }
    ensures less { IfSome result.1 (λ rest. length rest.now < length text.now) }
{
    let Some(at) = first(text, end) else {
        return (text, None);
    };
    let (before, rest) = text.split_at(at);
    (before, Some(rest.split_at(1).1))
}

/// The index of the first such byte.
fn first(text: &[u8], end: u8) -> Option<usize>
    ensures first { result ≡ position (λ byte. byte == end) text.now }
    ensures within { IfSome result (λ at. at < length text.now) }
{
    text.iter().position(|byte| *byte == end)
}
