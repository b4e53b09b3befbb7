// The program of a text: its tokens, read as a tree to the last.

ghost use Rattle.std.specs.Prelude.{◌≡◌, IfOk, IfErr, MatchResult};
ghost use Rattle.script_tokens.specs.declared.error.SyntaxError.TheVariants as errors;
ghost use Rattle.script_tokens.specs.Views.{tokens_of};
ghost use Rattle.script_syntax.specs.Trees.{Program as AProgram};
ghost use Rattle.script_syntax.specs.Views.{program_of};
ghost use Rattle.script_syntax.specs.Grammar.{IsProgram, Reads};
ghost use Rattle.script_syntax.specs.Refusals.{error_of, IsRefusalOfTokens, IsRefusalOfText};

use crate::cursor::Context;
use crate::functions::functions;
use crate::refusal::Refusal;
use crate::tree::Program;
use script_tokens::{Placed, SyntaxError, tokens_in};
use std::alloc::Global;

fn error_of(refusal: Refusal) -> SyntaxError
    ensures { result ≡ error_of refusal }
{
    match refusal {
        Refusal::Expected(span) => SyntaxError::Expected(span),
        Refusal::TooLarge(span) => SyntaxError::TooLarge(span),
        Refusal::NoMemory => SyntaxError::NoMemory,
    }
}

/// The program that all of the tokens are.
fn program(context: Context, tokens: &[Placed]) -> Result<Program, SyntaxError>
    ensures found { IfOk result (λ p. IsProgram (tokens_of tokens.now) (program_of p.functions.items)) }
    ensures read { (program : AProgram) → IsProgram (tokens_of tokens.now) program →
        MatchResult result (λ p. program_of p.functions.items ≡ program) (λ e. e ≡ errors.NoMemory) }
    ensures refused { IfErr result (λ e. IsRefusalOfTokens (tokens_of tokens.now) e) }
{
    match functions(context, tokens) {
        Ok(functions) => Ok(Program { functions }),
        Err(refusal) => Err(error_of(refusal)),
    }
}

/// The program of a script's text, by the grammar of the language and its limits.
///
/// Refusals, as `script_tokens::tokens_in` says where the text has no tokens: `TooLarge` at 0..0, `NotAscii` and
/// `BadToken`. Else `Expected` at the first token that the grammar does not allow there, or with the text's length twice
/// where the text ends too early; and `TooLarge` at the first token past a limit: the `fn` of function 65, the name of
/// parameter 17, token 513 of an outermost expression (the call of a `let` of several names is one), or what opens
/// nesting 33. `NoMemory` may come in place of any answer but the first `TooLarge`.
pub fn parse(alloc: Global, text: &[u8]) -> Result<Program, SyntaxError>
    // What is answered is the text's program.
    ensures found { IfOk result (λ p. Reads text.now (program_of p.functions.items)) }
    // A text that is a program is answered with that program, unless memory runs out.
    ensures read { (program : AProgram) → Reads text.now program →
        MatchResult result (λ p. program_of p.functions.items ≡ program) (λ e. e ≡ errors.NoMemory) }
    // A text is refused only for a cause.
    ensures refused { IfErr result (λ e. IsRefusalOfText text.now e) }
{
    let tokens = tokens_in(alloc, text)?;
    let context = Context {
        alloc,
        length: text.len(),
    };
    program(context, &tokens)
}
