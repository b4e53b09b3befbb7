// What holds of replays: they begin the serial run, name only known ids, and never break in a checked script.

ghost use Rattle.std.specs.Prelude.{ℕ, List};
ghost use Rattle.meaning.specs.Law.{LawOfReplay, LawOfIds};
ghost use Rattle.meaning.specs.Kinds.{AreSafe};
ghost use Rattle.meaning.specs.KindLaw.{LawOfKinds};
ghost use Rattle.meaning.specs.Mains.{MainStaysApart};
ghost use Rattle.meaning.specs.Readings.{DenIsTheReading};

/// Under every reading of ids under which births hold, what a task does on answers that begin what its run gets is a
/// beginning of what the run does with every remote call a plain call, and where it ends, the whole.
pub fn law_of_replay()
    ensures { LawOfReplay }
{}

/// What a task bears, prints, needs or ends with names only ids that stand in its arguments or in an answer, or that it bore.
pub fn law_of_ids()
    ensures { LawOfIds }
{}

/// A task of a checked script never meets an operand of the wrong kind nor prints a reference, in a serial run or in
/// pieces, and ends with results of its function's kinds.
pub fn checked_scripts_are_safe()
    ensures { AreSafe }
{}

/// What a task of a checked script is answered is of the kinds that it asks for, and what it bears has kinds, where its
/// answers begin what its run gets with every remote call a plain call.
pub fn law_of_kinds()
    ensures { LawOfKinds }
{}

/// Of a script in which no function calls main and none but main prints: what a task does on any answers bears no task of
/// main, and what is a put or a task of another function prints nothing.
pub fn main_stays_apart()
    ensures { MainStaysApart }
{}

/// Where births are of new objects and name only earlier ones, exactly one reading has all of them hold and 0 elsewhere.
pub fn births_have_one_reading()
    ensures { DenIsTheReading }
{}
