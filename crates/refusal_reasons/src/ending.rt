// What the names of faults and traps mean.

ghost use Rattle.std.specs.Prelude.{◌≡◌, IfNone, IfSome, false, true};
ghost use Rattle.refusal_reasons.specs.Names.{are_letters, ending_name};

use crate::near::are_letters;
use std::fmt;

/// A fault or a trap with which main may end. Its text is its name, then what it means, what it comes of, an example, and what to do, each on a line
/// of its own.
#[derive(Clone, Copy, Debug, PartialEq, Eq)]
pub enum Ending {
    /// A fault: the object is gone with the worker that owned it.
    OwnerDied,
    /// A fault: a value that was put lost its only copy.
    PutLost,
    /// A fault: each run of the task that it was allowed broke.
    RetriesUsed,
    /// A trap: a result outside the 64-bit signed integers.
    Overflow,
    /// A trap: a quotient or a remainder by 0.
    DivZero,
    /// A trap: an index outside a list.
    Index,
    /// A trap: a list of more than 4,096 items.
    TooLong,
    /// A trap: a loop of more than 10,000 turns.
    Loop,
    /// A trap: a call at depth 33 or more.
    TooDeep,
}

/// All of them.
pub(crate) const ENDINGS: [Ending; 9] = [
    Ending::OwnerDied,
    Ending::PutLost,
    Ending::RetriesUsed,
    Ending::Overflow,
    Ending::DivZero,
    Ending::Index,
    Ending::TooLong,
    Ending::Loop,
    Ending::TooDeep,
];

impl Ending {
    /// The fault or the trap with this name, in letters of either case, if there is one.
    pub fn named(name: &[u8]) -> Option<Ending>
        ensures found { IfSome result (λ e. are_letters (ending_name e) name.now ≡ true) }
        ensures none { IfNone result ((e : _) → are_letters (ending_name e) name.now ≡ false) }
    {
        if are_letters(Ending::OwnerDied.name().as_bytes(), name) {
            return Some(Ending::OwnerDied);
        }
        if are_letters(Ending::PutLost.name().as_bytes(), name) {
            return Some(Ending::PutLost);
        }
        if are_letters(Ending::RetriesUsed.name().as_bytes(), name) {
            return Some(Ending::RetriesUsed);
        }
        if are_letters(Ending::Overflow.name().as_bytes(), name) {
            return Some(Ending::Overflow);
        }
        if are_letters(Ending::DivZero.name().as_bytes(), name) {
            return Some(Ending::DivZero);
        }
        if are_letters(Ending::Index.name().as_bytes(), name) {
            return Some(Ending::Index);
        }
        if are_letters(Ending::TooLong.name().as_bytes(), name) {
            return Some(Ending::TooLong);
        }
        if are_letters(Ending::Loop.name().as_bytes(), name) {
            return Some(Ending::Loop);
        }
        if are_letters(Ending::TooDeep.name().as_bytes(), name) {
            return Some(Ending::TooDeep);
        }
        None
    }

    /// The name as reports and logs write it, such as `PutLost`.
    pub fn name(self) -> &'static str
        ensures { result.now ≡ ending_name self }
    {
        match self {
            Ending::OwnerDied => "OwnerDied",
            Ending::PutLost => "PutLost",
            Ending::RetriesUsed => "RetriesUsed",
            Ending::Overflow => "Overflow",
            Ending::DivZero => "DivZero",
            Ending::Index => "Index",
            Ending::TooLong => "TooLong",
            Ending::Loop => "Loop",
            Ending::TooDeep => "TooDeep",
        }
    }

    /// What kind of end it is.
    fn kind(self) -> &'static str {
        match self {
            Ending::OwnerDied | Ending::PutLost | Ending::RetriesUsed => "a fault",
            _ => "a trap",
        }
    }

    /// What happened where main ends so, in one sentence.
    fn meaning(self) -> &'static str {
        match self {
            Ending::OwnerDied => "The object is gone with the worker that owned it.",
            Ending::PutLost =>
                "The value was put, and its only copy is lost: no task can make it again.",
            Ending::RetriesUsed => "Each run of the task that it was allowed broke.",
            Ending::Overflow => "A result does not fit the 64-bit signed integers.",
            Ending::DivZero => "A number was divided by 0.",
            Ending::Index => "A list has no item at an index.",
            Ending::TooLong => "A list would have 4,097 items.",
            Ending::Loop => "A loop would take more than 10,000 turns.",
            Ending::TooDeep => "Calls would stand 33 deep inside one another, main not counted.",
        }
    }

    /// What leads to it.
    fn source(self) -> &'static str {
        match self {
            Ending::OwnerDied => {
                "the death of the worker whose attempt made the reference, or of its node, before a get of the object was answered"
            }
            Ending::PutLost =>
                "a lose of the value on the node of the worker that put it, and a get behind it",
            Ending::RetriesUsed => {
                "runs that broke, by a death of worker or node or a loss of the result, one more than the new runs of remote(k): 3 where no k is written"
            }
            Ending::Overflow => "+, -, * or a negation, or / or % of the least number by -1",
            Ending::DivZero => "/ or % by 0",
            Ending::Index => "an index below 0, or not below the list's length",
            Ending::TooLong => "a push onto a list of 4,096 items",
            Ending::Loop => "the bounds of a for, before its first turn",
            Ending::TooDeep => "a function that calls itself too often, plainly or remotely",
        }
    }

    /// An expression or an event that leads to it.
    fn example(self) -> &'static str {
        match self {
            Ending::OwnerDied => {
                "get get remote start(), where start returns remote leaf() and its worker dies"
            }
            Ending::PutLost =>
                "let p = put [7, 8]; and lose 1 o1.1 before the task that p is handed to",
            Ending::RetriesUsed => "get remote(0) f(), whose worker dies",
            Ending::Overflow => "9223372036854775807 + 1",
            Ending::DivZero => "1 / 0",
            Ending::Index => "[7, 8][2]",
            Ending::TooLong => "push(l, 1) where len(l) is 4096",
            Ending::Loop => "for i in 0 .. 10001 { }",
            Ending::TooDeep => "fn f() -> int { return f(); }",
        }
    }

    /// What the writer of a script can do against it.
    fn remedy(self) -> &'static str {
        match self {
            Ending::OwnerDied => {
                "get the result where its reference was made, and hand on the value; why names the death"
            }
            Ending::PutLost =>
                "have a task make the value in place of put, so that it can be made again",
            Ending::RetriesUsed =>
                "allow more new runs, up to 10: remote(10) f(); why names the deaths and losses",
            Ending::Overflow => "keep the numbers smaller; why names the attempt",
            Ending::DivZero => "test the divisor before",
            Ending::Index => "test the index against 0 and len before",
            Ending::TooLong => "split the list into several",
            Ending::Loop => "put one loop inside another, or loop in several tasks",
            Ending::TooDeep => "loop in place of calls, or halve what each call has to do",
        }
    }
}

impl fmt::Display for Ending {
    fn fmt<W: fmt::Write>(&self, f: &mut fmt::Formatter<W>) -> fmt::Result {
        let (name, kind) = (self.name(), self.kind());
        let (meaning, source) = (self.meaning(), self.source());
        let (example, remedy) = (self.example(), self.remedy());
        write!(
            f,
            "{name}, {kind}\n{meaning}\nComes of: {source}\nExample: {example}\nWhat to do: {remedy}"
        )
    }
}
