// A text taken apart: at the first byte of a kind, or behind a given front.

ghost use Rattle.std.specs.Prelude.{◌≡◌, MatchOption, None, Some};
ghost use Rattle.event_files.specs.Reading.{parted, behind};

/// What stands before the first such byte, and what after it.
pub fn parted(text: &[u8], mark: u8) -> Option<(&[u8], &[u8])>
    ensures { MatchOption result (parted mark text.now ≡ None) (λ parts. parted mark text.now ≡ Some (parts.0.now, parts.1.now)) }
{
    for place in 0..text.len() {
        if text[place] == mark {
            return Some((&text[..place], &text[place + 1..]));
        }
    }
    None
}

/// What follows the front, if the text begins with it.
pub fn behind<'a>(front: &[u8], text: &'a [u8]) -> Option<&'a [u8]>
    ensures { MatchOption result (behind front.now text.now ≡ None) (λ rest. behind front.now text.now ≡ Some rest.now) }
{
    if text.len() < front.len() {
        return None;
    }
    for place in 0..front.len() {
        if text[place] != front[place] {
            return None;
        }
    }
    Some(&text[front.len()..])
}
