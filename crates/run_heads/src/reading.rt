// What a history says of its run.

ghost use Rattle.std.specs.Prelude.{◌≡◌, MatchOption, None, Some, option_map};
ghost use Rattle.event_files.specs.Files.{is_passed};
ghost use Rattle.event_files.specs.Reading.{parted};
ghost use Rattle.run_heads.specs.Heads.{lines_in, said_in, said_of};

use event_files::behind;

/// How the line begins that says on which cluster the run began.
pub const CLUSTER_WORD: &[u8] = b"# cluster: ";

/// How the line begins that says which text the script has.
pub const SCRIPT_WORD: &[u8] = b"# script: ";

/// The first line, if it ends, and what follows it.
fn first_line(text: &[u8]) -> Option<(&[u8], &[u8])>
    ensures { MatchOption result (parted 10 text.now ≡ None) (λ parts. parted 10 text.now ≡ Some (parts.0.now, parts.1.now)) }
{
    for place in 0..text.len() {
        if text[place] == b'\n' {
            return Some((&text[..place], &text[place + 1..]));
        }
    }
    None
}

fn is_passed(line: &[u8]) -> bool
    ensures { result ≡ is_passed line.now }
{
    match line {
        [] => true,
        [first, ..] => *first == b'#',
    }
}

/// What stands behind the word in the first of the lines at the front that begins with it, if these are passed over.
fn said_in<'a>(word: &[u8], text: &'a [u8]) -> Option<&'a [u8]>
    ensures { option_map (λ s. s.now) result ≡ said_in word.now (lines_in text.now) }
{
    let mut rest = text;
    while let Some((line, after)) = first_line(rest) {
        if !is_passed(line) {
            return None;
        }
        if let Some(said) = behind(word, line) {
            return Some(said);
        }
        rest = after;
    }
    None
}

/// What a file of format 2 says behind the word, in the first of its comment lines that begins with it; these stand before its first event.
pub fn said_of<'a>(word: &[u8], text: &'a [u8]) -> Option<&'a [u8]>
    ensures { option_map (λ s. s.now) result ≡ said_of word.now text.now }
{
    match behind(b"raysim 2\n", text) {
        Some(rest) => said_in(word, rest),
        None => None,
    }
}
