//! The rows of a file, cut off one by one.

ghost use Rattle.std.specs.Prelude.{◌≡◌, ◌∷◌, [], ◌<◌, length, position, ◌==◌, IfNone, IfSome};
ghost use Rattle.command_text.specs.Held.{HasNoFeed};
ghost use Rattle.audit_chain.specs.File.{parts};

/// The first row of a file, without its line feed, and what stands behind. None where there is no line feed.
pub fn first_row(bytes: &[u8]) -> Option<(&[u8], &[u8])>
    ensures found { IfSome result (λ cut. parts bytes.now ≡ cut.0.now ∷ parts cut.1.now) }
    ensures shorter { IfSome result (λ cut. length cut.1.now < length bytes.now) }
    ensures none { IfNone result (parts bytes.now ≡ bytes.now ∷ []) }
{
    match line_feed_at(bytes) {
        Some(end) => {
            let (row, behind) = bytes.split_at(end);
            Some((row, &behind[1..]))
        }
        None => None,
    }
}

/// Where the first line feed stands.
fn line_feed_at(bytes: &[u8]) -> Option<usize>
    ensures value { result ≡ position (λ byte. byte == 10) bytes.now }
    ensures none { IfNone result (HasNoFeed bytes.now) }
{
    bytes.iter().position(|byte| *byte == b'\n')
}
