// How numbers in the texts of ids are read.

ghost use Rattle.std.specs.Prelude.{◌≡◌, ◌<◌, ◌^◌, ℕ, List, ◌∷◌, ◌++◌, IfSome, IfNone, false, Some};
ghost use Rattle.std.specs.Fmt.{decimal};
ghost use Rattle.ids.specs.Texts.{has_dot};

use std::str;

/// The number that a text writes, with no leading zeros.
pub fn read_number(text: &[u8]) -> Option<u64>
    ensures found { IfSome result (λ n. text.now ≡ decimal n) }
    ensures only { (n : ℕ) → n < 2 ^ 64 → text.now ≡ decimal n → result ≡ Some n }
{
    if text.is_empty() {
        return None;
    }
    if text[0] == b'+' {
        return None;
    }
    if text[0] == b'0' {
        return if text.len() == 1 { Some(0) } else { None };
    }
    let Ok(text) = str::from_utf8(text) else {
        return None;
    };
    text.parse::<u64>().ok()
}

/// What stands before the first dot, and what after it.
pub fn split_at_dot(text: &[u8]) -> Option<(&[u8], &[u8])>
    ensures found { IfSome result (λ parts. (has_dot parts.0.now ≡ false) × (text.now ≡ parts.0.now ++ 46 ∷ parts.1.now)) }
    ensures none { IfNone result (has_dot text.now ≡ false) }
{
    for dot in 0..text.len() {
        if text[dot] == b'.' {
            return Some((&text[..dot], &text[dot + 1..]));
        }
    }
    None
}
