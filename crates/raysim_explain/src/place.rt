// Lines and columns of a text.

ghost use Rattle.std.specs.Prelude.{◌≡◌, ◌≤◌, length, take, drop, All, ◌≢◌, IfSome, slice_get};
ghost use Rattle.raysim_explain.specs.Places.{place_in};

/// A place in a text: its line and its column, both counted from 1, the column in bytes; and where its line begins, in
/// bytes from the beginning of the text.
#[derive(Clone, Copy, Debug, PartialEq, Eq)]
pub struct Place {
    /// Counted from 1.
    pub line: usize,
    /// In bytes, counted from 1.
    pub column: usize,
    /// Where the line begins, in bytes from the beginning of the text.
    pub start: usize,
}

/// Where the byte `at` of a text stands; past the text, where its end stands.
pub fn place_of(text: &[u8], at: usize) -> Place
    ensures place { result ≡ place_in text.now at }
    ensures inside { result.start ≤ length text.now }
    ensures counted { 1 ≤ result.column }
{
    let mut place = Place {
        line: 1,
        column: 1,
        start: 0,
    };
    let mut i = 0;
    while i < at && i < text.len() {
        if text[i] == b'\n' {
            place = Place {
                line: place.line + 1,
                column: 1,
                start: i + 1,
            };
        } else {
            place.column += 1;
        }
        i += 1;
    }
    place
}

/// The line in which the byte `at` of a text stands, with no line feed.
pub fn line_at(text: &[u8], at: usize) -> &[u8]
    // It begins where the line does.
    ensures begins { result.now ≡ take (length result.now) (drop (place_in text.now at).start text.now) }
    // It has no line feed.
    ensures one { All (λ b. b ≢ 10) result.now }
    // What stands behind it, if anything, is a line feed.
    ensures whole { IfSome (slice_get (drop (place_in text.now at).start text.now) (length result.now)) (λ b. b ≡ 10) }
{
    let rest = &text[place_of(text, at).start..];
    let mut end = 0;
    while end < rest.len() && rest[end] != b'\n' {
        end += 1;
    }
    &rest[..end]
}
