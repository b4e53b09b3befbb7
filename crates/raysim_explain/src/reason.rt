// What each refusal means. docs/refusals.md has the same in a table.

ghost use Rattle.std.specs.Prelude.{◌≡◌, ◌≢◌, IfNone, IfSome};
ghost use Rattle.raysim_explain.specs.Texts.{cause_of, example_of, name_of, number_of};

use std::fmt;

/// Why something is refused. Its text is the number and the name, then the cause and an example, each on a line of its own.
#[derive(Clone, Copy, Debug, PartialEq, Eq, Drop)]
pub enum RefusalCause {
    /// 1: a byte of the script is above 127.
    NotAscii,
    /// 2: bytes of the script are no token.
    BadToken,
    /// 3: the grammar doesn't allow this token here, or the text ends too early.
    Expected,
    /// 4: a limit of scripts is passed.
    TooLarge,
    /// 10: no variable or function of this name is in scope, or main is called.
    UnknownName,
    /// 11: an expression has another type than its place asks for.
    WrongType,
    /// 12: a call has too many or too few arguments.
    WrongCount,
    /// 13: there is no main, or it has parameters, or its result isn't int, or it has several.
    NoMain,
    /// 14: a function other than main prints.
    PrintOutsideMain,
    /// 15: a function's body may end without a return.
    MissingReturn,
    /// 16: a remote call asks for more than 10 retries.
    BadRetries,
    /// 17: a name is given again while it is in scope.
    Duplicate,
    /// 18: a call has a function of another number of results, or another number of values is returned.
    WrongReturns,
    /// 20: an evict of an object's primary copy.
    Pinned,
    /// 21: the node that an event names has no copy of the object.
    NoCopy,
    /// 30: the first worker that an event names doesn't live.
    NoWorker,
    /// 31: a claim of a worker that has nothing to run, or whose job is out.
    NotReady,
    /// 32: a commit of a job that was never given out or was committed, or with nothing that was done on it.
    NoJob,
    /// 33: a commit of a job whose worker is dead.
    Stale,
    /// 34: no message has this number.
    NoMessage,
    /// 35: a notice of the death of a worker or node that lives or never was.
    NotDead,
    /// 36: the node that an event names doesn't live.
    NoNode,
    /// 37: an event would make object 1,000,001, worker 1,025 or node 65.
    Limit,
    /// 38: the run is halted, since an event before found no memory.
    Halted,
    /// 39: memory ran out.
    NoMemory,
    /// 40: a line of a list of events or of a plan is none of its format.
    BadLine,
    /// 41: there are more events, or lines of a list, than there may be.
    TooLong,
    /// 42: a claim gives another job than the history says.
    WrongJob,
    /// 50: a file can't be read or written.
    Failed,
}

impl RefusalCause {
    /// The reason with this number, if there is one.
    pub fn of(number: u8) -> Option<RefusalCause>
        ensures found { IfSome result (λ r. number_of r ≡ number) }
        ensures none { IfNone result ((r : _) → number_of r ≢ number) }
    {
        match number {
            1 => Some(RefusalCause::NotAscii),
            2 => Some(RefusalCause::BadToken),
            3 => Some(RefusalCause::Expected),
            4 => Some(RefusalCause::TooLarge),
            10 => Some(RefusalCause::UnknownName),
            11 => Some(RefusalCause::WrongType),
            12 => Some(RefusalCause::WrongCount),
            13 => Some(RefusalCause::NoMain),
            14 => Some(RefusalCause::PrintOutsideMain),
            15 => Some(RefusalCause::MissingReturn),
            16 => Some(RefusalCause::BadRetries),
            17 => Some(RefusalCause::Duplicate),
            18 => Some(RefusalCause::WrongReturns),
            20 => Some(RefusalCause::Pinned),
            21 => Some(RefusalCause::NoCopy),
            30 => Some(RefusalCause::NoWorker),
            31 => Some(RefusalCause::NotReady),
            32 => Some(RefusalCause::NoJob),
            33 => Some(RefusalCause::Stale),
            34 => Some(RefusalCause::NoMessage),
            35 => Some(RefusalCause::NotDead),
            36 => Some(RefusalCause::NoNode),
            37 => Some(RefusalCause::Limit),
            38 => Some(RefusalCause::Halted),
            39 => Some(RefusalCause::NoMemory),
            40 => Some(RefusalCause::BadLine),
            41 => Some(RefusalCause::TooLong),
            42 => Some(RefusalCause::WrongJob),
            50 => Some(RefusalCause::Failed),
            _ => None,
        }
    }

    /// The number after the word `refused`.
    pub fn number(self) -> u8
        ensures { result ≡ number_of self }
    {
        match self {
            RefusalCause::NotAscii => 1,
            RefusalCause::BadToken => 2,
            RefusalCause::Expected => 3,
            RefusalCause::TooLarge => 4,
            RefusalCause::UnknownName => 10,
            RefusalCause::WrongType => 11,
            RefusalCause::WrongCount => 12,
            RefusalCause::NoMain => 13,
            RefusalCause::PrintOutsideMain => 14,
            RefusalCause::MissingReturn => 15,
            RefusalCause::BadRetries => 16,
            RefusalCause::Duplicate => 17,
            RefusalCause::WrongReturns => 18,
            RefusalCause::Pinned => 20,
            RefusalCause::NoCopy => 21,
            RefusalCause::NoWorker => 30,
            RefusalCause::NotReady => 31,
            RefusalCause::NoJob => 32,
            RefusalCause::Stale => 33,
            RefusalCause::NoMessage => 34,
            RefusalCause::NotDead => 35,
            RefusalCause::NoNode => 36,
            RefusalCause::Limit => 37,
            RefusalCause::Halted => 38,
            RefusalCause::NoMemory => 39,
            RefusalCause::BadLine => 40,
            RefusalCause::TooLong => 41,
            RefusalCause::WrongJob => 42,
            RefusalCause::Failed => 50,
        }
    }

    /// The reason's name.
    pub fn name(self) -> &'static str
        ensures { result.now ≡ name_of self }
    {
        match self {
            RefusalCause::NotAscii => "NotAscii",
            RefusalCause::BadToken => "BadToken",
            RefusalCause::Expected => "Expected",
            RefusalCause::TooLarge => "TooLarge",
            RefusalCause::UnknownName => "UnknownName",
            RefusalCause::WrongType => "WrongType",
            RefusalCause::WrongCount => "WrongCount",
            RefusalCause::NoMain => "NoMain",
            RefusalCause::PrintOutsideMain => "PrintOutsideMain",
            RefusalCause::MissingReturn => "MissingReturn",
            RefusalCause::BadRetries => "BadRetries",
            RefusalCause::Duplicate => "Duplicate",
            RefusalCause::WrongReturns => "WrongReturns",
            RefusalCause::Pinned => "Pinned",
            RefusalCause::NoCopy => "NoCopy",
            RefusalCause::NoWorker => "NoWorker",
            RefusalCause::NotReady => "NotReady",
            RefusalCause::NoJob => "NoJob",
            RefusalCause::Stale => "Stale",
            RefusalCause::NoMessage => "NoMessage",
            RefusalCause::NotDead => "NotDead",
            RefusalCause::NoNode => "NoNode",
            RefusalCause::Limit => "Limit",
            RefusalCause::Halted => "Halted",
            RefusalCause::NoMemory => "NoMemory",
            RefusalCause::BadLine => "BadLine",
            RefusalCause::TooLong => "TooLong",
            RefusalCause::WrongJob => "WrongJob",
            RefusalCause::Failed => "Failed",
        }
    }

    /// What was wrong, and what the place is where the refusal has one.
    pub fn cause(self) -> &'static str
        ensures { result.now ≡ cause_of self }
    {
        match self {
            RefusalCause::NotAscii => "A byte of the script is above 127. The place is that byte.",
            RefusalCause::BadToken =>
                "A byte begins no token, or a run of letters, digits and _ is none. The place is the byte or the run.",
            RefusalCause::Expected =>
                "The grammar does not allow this token here, or the text ends too early. The place is the token or the end.",
            RefusalCause::TooLarge =>
                "A limit is passed: bytes (the place is 0..0), functions, parameters, tokens of an expression, or nesting.",
            RefusalCause::UnknownName =>
                "No variable or function of this name is in scope, or main is called. The place is the name.",
            RefusalCause::WrongType =>
                "An expression has another type than its place asks for. The place is the expression.",
            RefusalCause::WrongCount =>
                "A call has too many or too few arguments. The place is the function's name in the call.",
            RefusalCause::NoMain =>
                "There is no main, or it has parameters, or its result is not int, or it has several results. The place is 0..0.",
            RefusalCause::PrintOutsideMain =>
                "A function other than main prints. The place is the word print.",
            RefusalCause::MissingReturn =>
                "A function's body may end without a return. The place is the function's name.",
            RefusalCause::BadRetries =>
                "A remote call asks for more than 10 retries. The place is the number.",
            RefusalCause::Duplicate =>
                "A name is given again while it is in scope. The place is the second name.",
            RefusalCause::WrongReturns =>
                "A call or a return has another number of results than is asked for. The place is the function's name, or the word return.",
            RefusalCause::Pinned =>
                "An evict of an object's primary copy: a node gives up secondary copies alone.",
            RefusalCause::NoCopy => "The node that an event names has no copy of the object.",
            RefusalCause::NoWorker =>
                "The first worker that an event names does not live: it was never opened, or it is dead.",
            RefusalCause::NotReady =>
                "A claim of a worker that has nothing to run, or whose job is out.",
            RefusalCause::NoJob =>
                "A commit of a job that was never given out or was committed, or with nothing that was done on it.",
            RefusalCause::Stale => "A commit of a job whose worker is dead.",
            RefusalCause::NoMessage => "No message has this number.",
            RefusalCause::NotDead =>
                "A notice of the death of a worker or node that lives or never was.",
            RefusalCause::NoNode => "The node that an event names does not live.",
            RefusalCause::Limit =>
                "The event would make object 1,000,001, worker 1,025 or node 65. \
                 A run that meets it ends with no report, unless --so-far asks for the one up to there; a replay goes on behind it.",
            RefusalCause::Halted =>
                "An earlier event found no memory (39), so no further event is taken.",
            RefusalCause::NoMemory =>
                "There was no memory. A command then gives no report; the log of a run stays legal. \
                 Take a smaller script, fewer events, or a machine with more memory.",
            RefusalCause::BadLine =>
                "A line of an event file or a plan is none of its format, or the last line has no line feed. Lines are counted from 1.",
            RefusalCause::TooLong =>
                "More than 100,000 events would be applied. A replay that meets it ends with no report. \
                 Take fewer events, or ask for the report up to there by --so-far.",
            RefusalCause::WrongJob =>
                "A claim gave another job than the line of a recorded history says. The file was recorded of another run. \
                 Replay it with the script and the cluster that it was recorded of: where it has # lines, they say which.",
            RefusalCause::Failed =>
                "A read or a write failed. After a failed write of the report a beginning of it may be out.",
        }
    }

    /// A script, an event or a place that is refused so, as one line.
    pub fn example(self) -> &'static str
        ensures { result.now ≡ example_of self }
    {
        match self {
            RefusalCause::NotAscii => "a letter with an accent, in a comment too",
            RefusalCause::BadToken => "let aB = 1;, since names have small letters",
            RefusalCause::Expected => "fn main() -> int { return 1 }, since a ; is missing",
            RefusalCause::TooLarge => "an expression with 40 opening parentheses",
            RefusalCause::UnknownName => "fn main() -> int { return x; }",
            RefusalCause::WrongType =>
                "fn main() -> int { return put 1; }, since put 1 is a ref int",
            RefusalCause::WrongCount =>
                "fn one() -> int { return 1; } fn main() -> int { return one(2); }",
            RefusalCause::NoMain => "an empty script",
            RefusalCause::PrintOutsideMain => "fn f() -> int { print 1; return 1; }",
            RefusalCause::MissingReturn => "fn main() -> int { if 1 { return 1; } }",
            RefusalCause::BadRetries => "let r = remote(11) f();",
            RefusalCause::Duplicate => "let x = 1; let x = 2;",
            RefusalCause::WrongReturns => "let a, b = one();",
            RefusalCause::Pinned => "evict 1 o1.1 where node 1 keeps the primary copy",
            RefusalCause::NoCopy => "evict 2 o1.1 where node 2 never fetched o1.1",
            RefusalCause::NoWorker => "claim 7 in a run with two workers",
            RefusalCause::NotReady => "claim 1 twice, with no commit between",
            RefusalCause::NoJob => "commit 1 twice",
            RefusalCause::Stale => "claim 2 as job 2, kill 2, commit 2",
            RefusalCause::NoMessage => "deliver 9 in a run with three messages",
            RefusalCause::NotDead => "notice 1 2 while worker 2 lives",
            RefusalCause::NoNode => "kill-node 3 in a run on two nodes",
            RefusalCause::Limit => "1,100 remote calls that are all open",
            RefusalCause::Halted => "any event after a refusal 39",
            RefusalCause::NoMemory => "a very large list on a small machine",
            RefusalCause::BadLine => "claim 01, since a number has no leading zero",
            RefusalCause::TooLong => "a file of 100,001 lines join",
            RefusalCause::WrongJob =>
                "0 claim 1 2 as the first claim of a file of format 2, since it gives job 1",
            RefusalCause::Failed => "a script whose file is not there",
        }
    }
}

impl fmt::Display for RefusalCause {
    ghost use Rattle.std.specs.Prelude.{Some};
    ghost use Rattle.raysim_explain.specs.Texts.{reason_text};

    ghost output = { λ r. Some (reason_text r) };

    fn fmt<W: fmt::Write>(&self, f: &mut fmt::Formatter<W>) -> fmt::Result {
        let number = self.number();
        let name = self.name();
        let cause = self.cause();
        let example = self.example();
        write!(f, "{number} {name}\n{cause}\nExample: {example}")
    }
}
