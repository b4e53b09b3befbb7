// Texts and tokens are one program at most, and what is printed for a program is read as it.

ghost use Rattle.std.specs.Prelude.{◌≡◌, ◌≤◌, ℕ, List, length};
ghost use Rattle.script_tokens.specs.Tokens.{Token};
ghost use Rattle.script_syntax.specs.Trees.{Program as AProgram};
ghost use Rattle.script_syntax.specs.Grammar.{IsProgram, Reads};
ghost use Rattle.script_syntax.specs.Limits.{IsWithinLimits};
ghost use Rattle.script_tokens.specs.Spelling.{AllTokens, text_of_lines, tokens_of_lines};
ghost use Rattle.script_syntax.specs.Printing.{printed, printed_program};

use script_tokens::{one_reading, read_are_tokens, spelled_is_read};

/// Tokens are at most one program.
pub fn one_tree()
    ensures { (tokens : List Token) (a b : AProgram) → IsProgram tokens a → IsProgram tokens b → a ≡ b }
{}

/// A text is at most one program.
pub fn one_program()
    ensures { (text : List ℕ) (a b : AProgram) → Reads text a → Reads text b → a ≡ b }
{
    one_reading();
}

/// The tokens that are written for a program, with the fewest parentheses, are that program again, within the limits.
pub fn printed_is_program()
    ensures { (tokens : List Token) (program : AProgram) → IsProgram tokens program → IsProgram (printed program) program }
{}

/// The lines that are written for a program, one for each function, are its tokens.
pub fn lines_are_printed()
    ensures { (program : AProgram) → tokens_of_lines (printed_program program) ≡ printed program }
{}

/// What is printed for a program that some tokens are can be written, if these can.
pub fn printed_are_tokens()
    ensures { (tokens : List Token) (program : AProgram) → IsProgram tokens program → AllTokens tokens
        → AllTokens (tokens_of_lines (printed_program program)) }
{}

/// The text that is printed for a program within the limits, however it was made, is that program again, unless it is longer than a text may
/// be.
pub fn printed_text_is_read()
    ensures { (program : AProgram) → IsWithinLimits program
        → length (text_of_lines (printed_program program)) ≤ 65536
        → Reads (text_of_lines (printed_program program)) program }
{
    spelled_is_read();
}

/// A program that some text is, is within the limits.
pub fn read_is_within_limits()
    ensures { (text : List ℕ) (program : AProgram) → Reads text program → IsWithinLimits program }
{
    read_are_tokens();
}
