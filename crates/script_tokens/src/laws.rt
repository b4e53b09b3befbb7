// A text has one list of tokens at most, and what is written for tokens is read as them.

ghost use Rattle.std.specs.Prelude.{◌≡◌, ◌≤◌, ◌++◌, ◌∷◌, [], ℕ, List, length};
ghost use Rattle.script_tokens.specs.Tokens.{Token};
ghost use Rattle.script_tokens.specs.Spelling.{spell, spaced, line_text, text_of_lines, tokens_of_lines, AllTokens};
ghost use Rattle.script_tokens.specs.Texts.{AreTokens};

/// A text has at most one list of tokens.
pub fn one_reading()
    ensures { (text : List ℕ) (a b : List Token) → AreTokens text a → AreTokens text b → a ≡ b }
{}

/// What is read from a text can be written: its names are names, its numbers are in range.
pub fn read_are_tokens()
    ensures { (text : List ℕ) (tokens : List Token) → AreTokens text tokens → AllTokens tokens }
{}

/// Lines of tokens that are written have these tokens as text.
pub fn spelled_is_read()
    ensures { (lines : List (List Token)) → AllTokens (tokens_of_lines lines)
        → length (text_of_lines lines) ≤ 65536
        → AreTokens (text_of_lines lines) (tokens_of_lines lines) }
{}

/// Tokens that are each written with a space behind can be written in parts.
pub fn spaced_in_parts()
    ensures { (front back : List Token) → spaced (front ++ back) ≡ spaced front ++ spaced back }
{}

/// A line is its tokens, each with a space behind but the last, which has the line feed.
pub fn line_of_spaced()
    ensures { (tokens : List Token) (last : Token)
        → line_text (tokens ++ last ∷ []) ≡ spaced tokens ++ (spell last ++ 10 ∷ []) }
{}
