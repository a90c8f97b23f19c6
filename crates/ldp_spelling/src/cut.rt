ghost use Rattle.std.specs.Prelude.{◌≡◌, ◌==◌, [], ◌∷◌, ◌<◌, ◌≤◌, length, IfNone, IfSome};
ghost use Rattle.std.specs.List.{position_or_len};
ghost use Rattle.ldp_spelling.specs.Pieces.{pieces};

/// How many bytes stand before the first separator.
fn front_len(text: &[u8], at: u8) -> usize
    ensures value { result ≡ position_or_len (λ byte. byte == at) text.now }
    ensures within { result ≤ length text.now }
{
    text.iter().take_while(|byte| **byte != at).count()
}

/// The text before the first separator and the text behind it.
#[tactic(auto, using(crate::proofs::Cuts::cut_at, crate::proofs::Cuts::cut_none))]
pub fn cut(text: &[u8], at: u8) -> Option<(&[u8], &[u8])>
    ensures none { IfNone result (pieces at text.now ≡ text.now ∷ []) }
    ensures some { IfSome result (λ p. pieces at text.now ≡ p.0.now ∷ pieces at p.1.now) }
    ensures shorter { IfSome result (λ p. length p.1.now < length text.now) }
{
    let place = front_len(text, at);
    if place == text.len() {
        return None;
    }
    let (front, _) = text.split_at(place);
    let (_, rest) = text.split_at(place + 1);
    Some((front, rest))
}
