// What is told of the fault of a script.

use crate::statements::told_of_tree;
use crate::text_reason::told_of_text;
use script_syntax::Span;
use std::alloc::Global;

/// What is told of a script's refusal with this number, at these bytes: what was expected and what was found, what is near, or where the first one
/// stands. Each line begins with four spaces, and line feeds stand between them. Nothing is told that isn't sure, nor where memory runs out.
pub fn script_reason(
    alloc: Global,
    text: &[u8],
    code: u16,
    start: usize,
    end: usize,
) -> Option<String> {
    let span = Span { start, end };
    match code {
        1..=4 => told_of_text(alloc, text, code, span),
        10..=18 => told_of_tree(alloc, text, code, span),
        _ => None,
    }
}
