// How tokens are written: each as a script spells it, and a line of them with spaces between.

ghost use Rattle.std.specs.Prelude.{◌≡◌, ◌++◌, OnOk, OnErr, map, string_bytes};
ghost use Rattle.script_tokens.specs.Views.{token_of};
ghost use Rattle.script_tokens.specs.Spelling.{spell, line_text, Continues};

use crate::token::Token;
use itoa::Buffer;
use std::alloc::AllocError;

/// Writes a token at the text's end, as a script spells it: a number in decimal, without leading zeros.
///
/// Where memory runs out, the text is unchanged.
pub fn write_token(text: &mut String, token: Token) -> Result<(), AllocError>
    ensures ok { OnOk result
        (string_bytes text.new ≡ string_bytes text.old ++ spell (token_of token.entry)) }
    ensures err { OnErr result (string_bytes text.new ≡ string_bytes text.old) }
{
    match token {
        Token::Int(number) => text.push_str(Buffer::new().format(number)),
        Token::Name(name) => text.push_str(name),
        Token::Mark(mark) => text.push_str(mark.text()),
    }
}

/// Writes a line at the text's end: the tokens with one space between, and a line feed.
///
/// Where memory runs out, the text may end in a beginning of the line.
pub fn write_line(text: &mut String, tokens: &[Token]) -> Result<(), AllocError>
    ensures ok { OnOk result
        (string_bytes text.new ≡ string_bytes text.old ++ line_text (map token_of tokens.now)) }
    ensures err { OnErr result (Continues (string_bytes text.old) (string_bytes text.new)) }
{
    let [first, others @ ..] = tokens else {
        return text.push('\n');
    };
    write_token(text, *first)?;
    for token in others {
        text.push(' ')?;
        write_token(text, *token)?;
    }
    text.push('\n')
}
