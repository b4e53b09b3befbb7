// The grammar, as a machine that takes one token after the other, and knows at each what may stand there. docs/language.md has the same grammar.

use script_tokens::{Mark, Placed, Token};
use std::alloc::{AllocError, Global};

/// The most steps of the machine: more than any script needs that isn't too long.
const MOST_STEPS: u32 = 4_000_000;

/// How many brackets and prefixes may be open at one place.
const MOST_OPEN: u32 = 32;

/// The most tokens of an outermost expression.
const MOST_TOKENS: usize = 512;

/// The most functions of a script.
const MOST_FUNCTIONS: usize = 64;

/// The most parameters of a function.
const MOST_PARAMETERS: usize = 16;

/// The most results of a function, values of a return and names of a `let`.
const MOST_RESULTS: u8 = 4;

/// What may stand at a place.
#[derive(Clone, Copy, Debug, PartialEq, Eq)]
pub(crate) enum Expectation {
    Mark(Mark),
    /// Any name, which language.md writes NAME.
    Name,
    /// Any number, which language.md writes INT.
    Number,
    /// The end of the text.
    End,
}

/// A limit of a script.
#[derive(Clone, Copy, Debug, PartialEq, Eq)]
pub(crate) enum Limit {
    /// How many functions a script has.
    Functions,
    /// How many parameters a function has.
    Parameters,
    /// How many tokens an expression has.
    Tokens,
    /// How many brackets and prefixes are open at one place (docs/language.md).
    Nesting,
}

/// A part of the grammar that is still to come.
#[derive(Clone, Copy)]
enum Part {
    /// Functions up to the end of the text.
    Functions,
    /// That mark, which neither opens nor closes a level.
    Wanted(Mark),
    /// That mark, which opens a level.
    Open(Mark),
    /// That mark, which closes a level.
    Close(Mark),
    /// The end of a prefix's operand, which closes a level.
    Shallower,
    Name,
    Number,
    Parameters,
    ParameterName,
    MoreParameters,
    Kind,
    Results,
    /// Further types of results, where there are so many.
    MoreKinds(u8),
    /// Statements, and the brace that closes their block.
    Statements,
    /// What follows so many names of a `let`.
    LetNames(u8),
    /// What follows so many values of a `return`.
    Values(u8),
    Else,
    Outermost,
    OutermostCall,
    OutermostEnd,
    Expression,
    Compared,
    Sum,
    MoreSum,
    Product,
    MoreProduct,
    Unary,
    Indexes,
    Primary,
    CallTail,
    Retries,
    Arguments,
    /// Further items, and what closes them.
    MoreItems(Mark),
}

/// A machine before one of the tokens.
#[derive(Drop)]
pub(crate) struct Machine<'t> {
    tokens: &'t [Placed<'t>],
    /// The place of the token before which the machine stops.
    target: usize,
    at: usize,
    depth: u32,
    functions: usize,
    parameters: usize,
    /// Where the outermost expression begins.
    begun: Option<usize>,
    parts: Vec<Part>,
    /// What may stand there, as far as that was looked at.
    pub(crate) expected: Vec<Expectation>,
    /// The grammar allows the token before which the machine stops.
    pub(crate) is_allowed: bool,
    /// A limit that this token passes.
    pub(crate) limit: Option<Limit>,
}

impl<'t> Machine<'t> {
    /// A machine before the first token, which is to stop before the one at that place.
    pub(crate) fn new(
        alloc: Global,
        tokens: &'t [Placed<'t>],
        target: usize,
    ) -> Result<Machine<'t>, AllocError> {
        let mut parts = Vec::new(alloc);
        parts.push(Part::Functions)?;
        Ok(Machine {
            tokens,
            target,
            at: 0,
            depth: 0,
            functions: 0,
            parameters: 0,
            begun: None,
            parts,
            expected: Vec::new(alloc),
            is_allowed: false,
            limit: None,
        })
    }

    /// Takes the tokens up to that place. Answers whether the machine stands before it, with what may stand there.
    pub(crate) fn run(&mut self) -> Result<bool, AllocError> {
        for _step in 0..MOST_STEPS {
            let Some(part) = self.parts.pop() else {
                return Ok(false);
            };
            let goes_on = self.step(part)?;
            if self.is_allowed {
                return Ok(true);
            }
            if !goes_on {
                return Ok(self.at == self.target);
            }
        }
        Ok(false)
    }

    fn token(&self) -> Option<Token<'t>> {
        match self.tokens.get(self.at) {
            Some(placed) => Some(placed.token),
            None => None,
        }
    }

    /// Notes what may stand there, and that nothing was taken.
    fn lacks(&mut self, expectation: Expectation) -> Result<bool, AllocError> {
        self.expected.push(expectation)?;
        Ok(false)
    }

    /// The parts come next.
    fn then(&mut self, parts: &[Part]) -> Result<bool, AllocError> {
        for part in parts.iter().rev() {
            self.parts.push(*part)?;
        }
        Ok(true)
    }

    /// The limit that a token passes, where it opens a level or doesn't.
    fn passed(&self, opens: bool) -> Option<Limit> {
        if let Some(begun) = self.begun {
            if self.at.saturating_sub(begun) == MOST_TOKENS {
                return Some(Limit::Tokens);
            }
        }
        if opens && self.depth == MOST_OPEN {
            return Some(Limit::Nesting);
        }
        None
    }

    /// Takes the token there, unless the machine is to stop before it; answers whether it was taken.
    fn take(&mut self, limit: Option<Limit>) -> bool {
        if self.at == self.target {
            self.is_allowed = true;
            self.limit = limit;
            return false;
        }
        self.at = self.at.saturating_add(1);
        self.expected.clear();
        true
    }

    fn sees(&self, wanted: Mark) -> bool {
        match self.token() {
            Some(Token::Mark(mark)) => mark == wanted,
            _ => false,
        }
    }

    /// Takes a mark, behind which those parts come, if it stands there.
    fn mark(&mut self, wanted: Mark, parts: &[Part]) -> Result<bool, AllocError> {
        if self.is_allowed || !self.sees(wanted) {
            return self.lacks(Expectation::Mark(wanted));
        }
        let limit = match wanted {
            Mark::Fn if self.functions == MOST_FUNCTIONS => Some(Limit::Functions),
            _ => self.passed(false),
        };
        if !self.take(limit) {
            return Ok(false);
        }
        self.then(parts)
    }

    /// Takes a mark that opens a level.
    fn open(&mut self, wanted: Mark, parts: &[Part]) -> Result<bool, AllocError> {
        if self.is_allowed || !self.sees(wanted) {
            return self.lacks(Expectation::Mark(wanted));
        }
        let limit = self.passed(true);
        if !self.take(limit) {
            return Ok(false);
        }
        self.depth = self.depth.saturating_add(1);
        self.then(parts)
    }

    /// Takes a mark that closes a level.
    fn close(&mut self, wanted: Mark) -> Result<bool, AllocError> {
        if self.mark(wanted, &[])? {
            self.depth = self.depth.saturating_sub(1);
            return Ok(true);
        }
        Ok(false)
    }

    fn name(&mut self, limit: Option<Limit>, parts: &[Part]) -> Result<bool, AllocError> {
        match self.token() {
            Some(Token::Name(_)) if !self.is_allowed => {
                if !self.take(limit) {
                    return Ok(false);
                }
                self.then(parts)
            }
            _ => self.lacks(Expectation::Name),
        }
    }

    fn number(&mut self) -> Result<bool, AllocError> {
        match self.token() {
            Some(Token::Int(_)) if !self.is_allowed => {
                let limit = self.passed(false);
                Ok(self.take(limit))
            }
            _ => self.lacks(Expectation::Number),
        }
    }

    /// Does what comes next. Answers whether the machine goes on.
    fn step(&mut self, part: Part) -> Result<bool, AllocError> {
        match part {
            Part::Wanted(mark) => self.mark(mark, &[]),
            Part::Open(mark) => self.open(mark, &[]),
            Part::Close(mark) => self.close(mark),
            Part::Shallower => {
                self.depth = self.depth.saturating_sub(1);
                Ok(true)
            }
            Part::Name => {
                let limit = self.passed(false);
                self.name(limit, &[])
            }
            Part::Number => self.number(),
            Part::Functions
            | Part::Parameters
            | Part::ParameterName
            | Part::MoreParameters
            | Part::Kind
            | Part::Results
            | Part::MoreKinds(_) => self.declare(part),
            Part::Statements | Part::LetNames(_) | Part::Values(_) | Part::Else => {
                self.state(part)
            }
            _ => self.express(part),
        }
    }

    /// The same, of a function in front of its body.
    fn declare(&mut self, part: Part) -> Result<bool, AllocError> {
        match part {
            Part::Functions => self.function(),
            Part::Parameters => {
                if self.close(Mark::CloseParenthesis)? {
                    return Ok(true);
                }
                self.then(&[
                    Part::ParameterName,
                    Part::Wanted(Mark::Colon),
                    Part::Kind,
                    Part::MoreParameters,
                ])
            }
            Part::ParameterName => {
                let limit = if self.parameters == MOST_PARAMETERS {
                    Some(Limit::Parameters)
                } else {
                    None
                };
                self.parameters = self.parameters.saturating_add(1);
                self.name(limit, &[])
            }
            Part::MoreParameters => {
                let more = [
                    Part::ParameterName,
                    Part::Wanted(Mark::Colon),
                    Part::Kind,
                    Part::MoreParameters,
                ];
                if self.mark(Mark::Comma, &more)? {
                    return Ok(true);
                }
                self.close(Mark::CloseParenthesis)
            }
            Part::Results => {
                let several = [
                    Part::Kind,
                    Part::Wanted(Mark::Comma),
                    Part::Kind,
                    Part::MoreKinds(2),
                ];
                if self.open(Mark::OpenParenthesis, &several)? {
                    return Ok(true);
                }
                self.kind()
            }
            Part::MoreKinds(count) => {
                if count < MOST_RESULTS {
                    let more = [Part::Kind, Part::MoreKinds(count + 1)];
                    if self.mark(Mark::Comma, &more)? {
                        return Ok(true);
                    }
                }
                self.close(Mark::CloseParenthesis)
            }
            _ => self.kind(),
        }
    }

    fn function(&mut self) -> Result<bool, AllocError> {
        self.parameters = 0;
        let parts = [
            Part::Name,
            Part::Open(Mark::OpenParenthesis),
            Part::Parameters,
            Part::Wanted(Mark::Arrow),
            Part::Results,
            Part::Open(Mark::OpenBrace),
            Part::Statements,
            Part::Functions,
        ];
        if self.mark(Mark::Fn, &parts)? {
            self.functions = self.functions.saturating_add(1);
            return Ok(true);
        }
        if self.functions > 0 {
            return self.lacks(Expectation::End);
        }
        Ok(false)
    }

    fn kind(&mut self) -> Result<bool, AllocError> {
        if self.mark(Mark::Int, &[])? {
            return Ok(true);
        }
        let items = [Part::Kind, Part::Close(Mark::CloseBracket)];
        if self.open(Mark::OpenBracket, &items)? {
            return Ok(true);
        }
        self.open(Mark::Ref, &[Part::Kind, Part::Shallower])
    }

    /// The same, of statements.
    fn state(&mut self, part: Part) -> Result<bool, AllocError> {
        match part {
            Part::LetNames(count) => {
                let value = if count == 1 {
                    Part::Outermost
                } else {
                    Part::OutermostCall
                };
                let parts = [value, Part::Wanted(Mark::Semicolon), Part::Statements];
                if self.mark(Mark::Assign, &parts)? {
                    return Ok(true);
                }
                if count < MOST_RESULTS {
                    return self.mark(Mark::Comma, &[Part::Name, Part::LetNames(count + 1)]);
                }
                Ok(false)
            }
            Part::Values(count) => {
                if self.mark(Mark::Semicolon, &[])? {
                    return Ok(true);
                }
                if count < MOST_RESULTS {
                    return self.mark(Mark::Comma, &[Part::Outermost, Part::Values(count + 1)]);
                }
                Ok(false)
            }
            Part::Else => {
                let _ = self.mark(Mark::Else, &[Part::Open(Mark::OpenBrace), Part::Statements])?;
                Ok(true)
            }
            _ => self.statement(),
        }
    }

    fn statement(&mut self) -> Result<bool, AllocError> {
        if self.mark(Mark::Let, &[Part::Name, Part::LetNames(1)])? {
            return Ok(true);
        }
        let set = [
            Part::Name,
            Part::Wanted(Mark::Assign),
            Part::Outermost,
            Part::Wanted(Mark::Semicolon),
            Part::Statements,
        ];
        if self.mark(Mark::Set, &set)? {
            return Ok(true);
        }
        let branches = [
            Part::Outermost,
            Part::Open(Mark::OpenBrace),
            Part::Statements,
            Part::Else,
            Part::Statements,
        ];
        if self.mark(Mark::If, &branches)? {
            return Ok(true);
        }
        let turns = [
            Part::Name,
            Part::Wanted(Mark::In),
            Part::Outermost,
            Part::Wanted(Mark::Range),
            Part::Outermost,
            Part::Open(Mark::OpenBrace),
            Part::Statements,
            Part::Statements,
        ];
        if self.mark(Mark::For, &turns)? {
            return Ok(true);
        }
        let printed = [
            Part::Outermost,
            Part::Wanted(Mark::Semicolon),
            Part::Statements,
        ];
        if self.mark(Mark::Print, &printed)? {
            return Ok(true);
        }
        let returned = [Part::Outermost, Part::Values(1), Part::Statements];
        if self.mark(Mark::Return, &returned)? {
            return Ok(true);
        }
        self.close(Mark::CloseBrace)
    }

    /// The same, of expressions.
    fn express(&mut self, part: Part) -> Result<bool, AllocError> {
        match part {
            Part::Outermost => {
                self.begun = Some(self.at);
                self.then(&[Part::Expression, Part::OutermostEnd])
            }
            Part::OutermostCall => {
                self.begun = Some(self.at);
                self.called()
            }
            Part::OutermostEnd => {
                self.begun = None;
                Ok(true)
            }
            Part::Expression => self.then(&[Part::Sum, Part::Compared]),
            Part::Sum => self.then(&[Part::Product, Part::MoreSum]),
            Part::Product => self.then(&[Part::Unary, Part::MoreProduct]),
            Part::Compared => {
                let signs = [Mark::Equal, Mark::NotEqual, Mark::Less, Mark::LessEqual];
                self.may_follow(&signs, &[Part::Sum])
            }
            Part::MoreSum => {
                self.may_follow(&[Mark::Plus, Mark::Minus], &[Part::Product, Part::MoreSum])
            }
            Part::MoreProduct => {
                let signs = [Mark::Times, Mark::Slash, Mark::Percent];
                self.may_follow(&signs, &[Part::Unary, Part::MoreProduct])
            }
            Part::Unary => {
                for prefix in [Mark::Minus, Mark::Get, Mark::Put] {
                    if self.open(prefix, &[Part::Unary, Part::Shallower])? {
                        return Ok(true);
                    }
                }
                self.then(&[Part::Primary, Part::Indexes])
            }
            Part::Indexes => {
                let index = [
                    Part::Expression,
                    Part::Close(Mark::CloseBracket),
                    Part::Indexes,
                ];
                let _ = self.open(Mark::OpenBracket, &index)?;
                Ok(true)
            }
            _ => self.inside(part),
        }
    }

    /// One of the marks, behind which those parts come, or nothing.
    fn may_follow(&mut self, marks: &[Mark], parts: &[Part]) -> Result<bool, AllocError> {
        for mark in marks {
            if self.mark(*mark, parts)? {
                return Ok(true);
            }
        }
        Ok(true)
    }

    /// A call that stands in no expression.
    fn called(&mut self) -> Result<bool, AllocError> {
        let task = [
            Part::Retries,
            Part::Name,
            Part::Open(Mark::OpenParenthesis),
            Part::Arguments,
            Part::OutermostEnd,
        ];
        if self.mark(Mark::Remote, &task)? {
            return Ok(true);
        }
        let limit = self.passed(false);
        let call = [
            Part::Open(Mark::OpenParenthesis),
            Part::Arguments,
            Part::OutermostEnd,
        ];
        self.name(limit, &call)
    }

    /// What stands inside products, and in calls.
    fn inside(&mut self, part: Part) -> Result<bool, AllocError> {
        match part {
            Part::Primary => self.primary(),
            Part::CallTail => {
                let _ = self.open(Mark::OpenParenthesis, &[Part::Arguments])?;
                Ok(true)
            }
            Part::Retries => {
                let number = [Part::Number, Part::Close(Mark::CloseParenthesis)];
                let _ = self.open(Mark::OpenParenthesis, &number)?;
                Ok(true)
            }
            Part::Arguments => {
                if self.close(Mark::CloseParenthesis)? {
                    return Ok(true);
                }
                let items = Part::MoreItems(Mark::CloseParenthesis);
                self.then(&[Part::Expression, items])
            }
            Part::MoreItems(mark) => {
                let more = [Part::Expression, Part::MoreItems(mark)];
                if self.mark(Mark::Comma, &more)? {
                    return Ok(true);
                }
                self.close(mark)
            }
            _ => Ok(false),
        }
    }

    fn primary(&mut self) -> Result<bool, AllocError> {
        let limit = self.passed(false);
        if self.number()? {
            return Ok(true);
        }
        if self.name(limit, &[Part::CallTail])? {
            return Ok(true);
        }
        let close = Part::Close(Mark::CloseParenthesis);
        let open = Part::Open(Mark::OpenParenthesis);
        let task = [Part::Retries, Part::Name, open, Part::Arguments];
        if self.mark(Mark::Remote, &task)? {
            return Ok(true);
        }
        let items = [Part::Expression, Part::MoreItems(Mark::CloseBracket)];
        if self.open(Mark::OpenBracket, &items)? {
            return Ok(true);
        }
        if self.open(Mark::OpenParenthesis, &[Part::Expression, close])? {
            return Ok(true);
        }
        if self.mark(Mark::Empty, &[Part::Kind])? {
            return Ok(true);
        }
        if self.mark(Mark::Len, &[open, Part::Expression, close])? {
            return Ok(true);
        }
        let pair = [
            open,
            Part::Expression,
            Part::Wanted(Mark::Comma),
            Part::Expression,
            close,
        ];
        self.mark(Mark::Push, &pair)
    }
}
