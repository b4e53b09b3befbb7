// Scripts for the checks.

use crate::checks::failed::Failed;
use script_check::check;
use script_syntax::parse;
use segment::Compiled;
use std::alloc::Global;

/// The checked script of a text with its code. It fails where the text is none, or memory runs out.
pub fn script(alloc: Global, text: &str) -> Result<Compiled, Failed> {
    let Some(program) = parse(alloc, text.as_bytes()).ok() else {
        return Err(Failed("no program"));
    };
    let Some(checked) = check(alloc, program).ok() else {
        return Err(Failed("no script"));
    };
    Compiled::new(alloc, checked).ok().ok_or(Failed("no code"))
}
