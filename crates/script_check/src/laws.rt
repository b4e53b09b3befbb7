// What holds of every script that the rules allow.

ghost use Rattle.script_check.specs.Scripts.{OneChecked, AllWellTyped};

/// A program becomes one script at most.
pub fn one_checked_script()
    ensures { OneChecked }
{}

/// What the rules allow is well typed, so that it never meets an operand of a wrong kind; and no function of it calls main, and none
/// but main prints.
pub fn checked_scripts_are_well_typed()
    ensures { AllWellTyped }
{}
