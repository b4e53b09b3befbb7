// Checked scripts, and the check that makes one of a program or names its first fault.

ghost use Rattle.std.specs.Prelude.{◌≡◌, IfOk, MatchResult};
ghost use Rattle.meaning.specs.Syntax.{Script};
ghost use Rattle.script_syntax.specs.Views.{program_of};
ghost use Rattle.script_check.specs.Trees.{script_of};
ghost use Rattle.script_check.specs.Rules.{IsCheckedOf};
ghost use Rattle.script_check.specs.Scripts.{IsWellTyped};

use crate::copy::copy_functions;
use crate::error::CheckError;
use crate::functions::{check_functions, check_main, check_names};
use crate::tree::CheckedFunction;
use script_syntax::{Function, Program};
use std::alloc::{AllocError, Global};
use std::marker::Model;

/// A script that was checked. It is well typed, its functions have different names, and its main
/// has no parameters and is of type int.
#[derive(Drop)]
pub struct Checked {
    functions: Vec<CheckedFunction>,
}

impl Model for Checked {
    ghost use Rattle.std.specs.Prelude.{List};
    ghost use Rattle.std.specs.Coded.{codes};
    ghost use Rattle.script_syntax.specs.contracts.tree.ValueType as types;
    ghost use Rattle.script_check.specs.contracts.tree.CheckedExpr as exprs;
    ghost use Rattle.script_check.specs.contracts.tree.CheckedStatement as statements;
    ghost use Rattle.script_check.specs.contracts.tree.CheckedBlock as blocks;
    ghost use Rattle.script_check.specs.Trees.{script_of};
    ghost use Rattle.script_check.specs.Scripts.{IsWellTyped};
    ghost use Rattle.script_check.specs.declared.tree.CheckedFunction.{CheckedFunction};

    ghost Value = { List CheckedFunction };

    ghost coded = { Prim.hlevel (codes, types.the_row.coded, exprs.the_row.coded, statements.the_row.coded, blocks.the_row.coded) };

    ghost view = { λ c. c.functions.items };

    ghost invariant = { λ c. IsWellTyped (script_of c.functions.items) };
}

impl Checked {
    /// The script's functions, in the order of its text.
    pub fn functions(&self) -> &[CheckedFunction]
        ensures value { result.now ≡ self.now }
        ensures well_typed { IsWellTyped (script_of self.now) }
    {
        &self.functions
    }

    /// An equal script.
    pub fn copy(&self, alloc: Global) -> Result<Checked, AllocError>
        ensures { IfOk result (λ c. script_of c ≡ script_of self.now) }
    {
        let functions = copy_functions(alloc, &self.functions)?;
        Ok(Checked { functions })
    }
}

fn functions_of(program: &Program) -> &[Function]
    ensures { result.now ≡ program.now.functions.items }
{
    &program.functions
}

/// Checks a program: its names and scopes, its types, its returns and its main. The first fault
/// is the refusal, in this order: a function with the name of one before it; no main; then of each
/// function its parameters, its statements in order, and a return that may be missed. In a
/// statement the number of a return's values, and a `let` over a remote call of several results,
/// come first, names before expressions, and operands before the expression that they stand in.
pub fn check(alloc: Global, program: Program) -> Result<Checked, CheckError>
    // What is given is what the program becomes by the rules.
    ensures found { IfOk result (λ c. IsCheckedOf (program_of program.functions.items) (script_of c)) }
    // What the rules allow is given, unless memory runs out.
    ensures only { (script : Script) → IsCheckedOf (program_of program.functions.items) script →
        MatchResult result (λ c. script_of c ≡ script) (λ e. e ≡ CheckError.NoMemory) }
{
    let functions = functions_of(&program);
    check_names(functions)?;
    check_main(functions)?;
    let functions = check_functions(alloc, functions)?;
    Ok(Checked { functions })
}
