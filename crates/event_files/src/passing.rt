// Which lines say nothing: empty ones, and those that begin with `#`.

ghost use Rattle.std.specs.Prelude.{◌≡◌};
ghost use Rattle.event_files.specs.Files.{is_passed};

/// Whether the line is passed over: it is empty, or begins with `#`.
pub fn is_passed(line: &[u8]) -> bool
    ensures { result ≡ is_passed line.now }
{
    match line {
        [] => true,
        [first, ..] => *first == b'#',
    }
}
