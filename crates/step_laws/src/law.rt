// Where the cursor stands.

ghost use Rattle.step_laws.specs.Cursors.{OneFirst};

/// There is one place at which a cursor stands at the first message that was never delivered, or behind all.
pub fn there_is_one_first()
    ensures { OneFirst }
{}
