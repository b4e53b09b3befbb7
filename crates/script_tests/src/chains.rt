// Comparisons do not chain.

ghost use Rattle.script_syntax.specs.Grammar.{IsProgram, NoProgram};
ghost use Rattle.script_tests.specs.Chains.{chained, grouped, grouped_tree, main_returns, main_with};

/// The tokens of `fn main() -> int { return 1 < 2 < 3; }` are no program, so no parser that promises what `script_syntax::parse` does reads them;
/// with parentheses about the first comparison they are one.
pub fn chains_are_no_programs()
    ensures chained { NoProgram (main_returns chained) }
    ensures grouped { IsProgram (main_returns grouped) (main_with grouped_tree) }
{}
