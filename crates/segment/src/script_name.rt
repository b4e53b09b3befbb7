// A type that stands for one script in contracts, so that jobs of two scripts are never mixed up.

ghost use Rattle.meaning.specs.Syntax.{Script};

use std::marker::Brand;

/// A type that stands for one script in contracts: jobs of different scripts are of different types. A program is generic
/// in it, and whoever calls the program with `Brand` says which script it is.
pub trait ScriptName {
    ghost script: { Script };
}

impl ScriptName for Brand {
    ghost use Rattle.std.specs.Prelude.{[]};

    ghost script = { [] };
}
