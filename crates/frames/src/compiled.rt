// A checked script with its code, made once for all jobs of a run.

ghost use Rattle.std.specs.Prelude.{◌≡◌, IfOk};
ghost use Rattle.frame_laws.specs.Law as laws;
ghost use Rattle.frame_code.specs.Views.{code_of};
ghost use Rattle.script_check.specs.Trees.{script_of};

use frame_code::{Code, compile};
use script_check::Checked;
use std::alloc::{AllocError, Global};
use std::marker::Model;

/// A checked script with its code, which is made once and serves each job of a run.
#[derive(Drop)]
pub struct Compiled {
    script: Checked,
    code: Code,
}

impl Model for Compiled {
    ghost use Rattle.std.specs.Prelude.{◌≡◌, List};
    ghost use Rattle.std.specs.Coded.{codes};
    ghost use Rattle.frame_code.specs.of_script_syntax.contracts.tree.ValueType as types;
    ghost use Rattle.script_check.specs.contracts.tree.CheckedExpr as exprs;
    ghost use Rattle.script_check.specs.contracts.tree.CheckedStatement as statements;
    ghost use Rattle.script_check.specs.contracts.tree.CheckedBlock as blocks;
    ghost use Rattle.script_check.specs.Trees.{script_of};
    ghost use Rattle.script_check.specs.declared.tree.CheckedFunction.{CheckedFunction};
    ghost use Rattle.frame_code.specs.Views.{code_of};
    ghost use Rattle.frame_laws.specs.Law as laws;

    ghost Value = { List CheckedFunction };

    ghost coded = { Prim.hlevel (codes, types.the_row.coded, exprs.the_row.coded, statements.the_row.coded, blocks.the_row.coded) };

    ghost view = { λ c. c.script };

    ghost invariant = { λ c. code_of c.code ≡ laws.code_of (script_of c.script) };
}

impl Compiled {
    /// The script with its code.
    pub fn new(alloc: Global, script: Checked) -> Result<Compiled, AllocError>
        ensures { IfOk result (λ c. c ≡ script) }
    {
        let code = compile(alloc, &script)?;
        Ok(Compiled { script, code })
    }

    /// The checked script that the code was made of.
    pub fn script(&self) -> &Checked
        ensures { result.now ≡ self.now }
    {
        &self.script
    }

    /// The code, which is the script's by the contract.
    pub(crate) fn code(&self) -> &Code
        ensures { code_of result.now ≡ laws.code_of (script_of self.now) }
    {
        &self.code
    }
}
