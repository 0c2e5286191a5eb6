//! Lines and words.
ghost use Rattle.std.specs.Prelude.{◌≡◌, ◌==◌, ◌∷◌, ◌<◌, [], length, position, IfSome, IfNone};
ghost use Rattle.std.specs.List.{slice_split};

/// The bytes before the first one that is `mark`, and those after it. None where there is none.
pub(crate) fn split_once(bytes: &[u8], mark: u8) -> Option<(&[u8], &[u8])>
    ensures some { IfSome result (λ x. slice_split (λ b. b == mark) bytes.now ≡
        x.0.now ∷ slice_split (λ b. b == mark) x.1.now) }
    ensures less { IfSome result (λ x. length x.1.now < length bytes.now) }
    ensures none { IfNone result (slice_split (λ b. b == mark) bytes.now ≡ bytes.now ∷ []) }
{
    let end = first_at(bytes, mark)?;
    Some((&bytes[..end], &bytes[end + 1..]))
}

fn first_at(bytes: &[u8], mark: u8) -> Option<usize>
    ensures { result ≡ position (λ b. b == mark) bytes.now }
{
    bytes.iter().position(|b| *b == mark)
}
