// The tree of a script's text.

use script_tokens::Span;

/// A name, where it stands.
#[derive(Drop)]
pub struct Name {
    /// From 1 to 64 bytes, and no reserved word.
    pub text: String,
    pub span: Span,
}

/// A type as written.
#[derive(Drop)]
pub enum ValueType {
    /// `int`: a 64-bit signed integer.
    Int,
    /// A list of items of this type.
    List(Box<ValueType>),
    /// `ref`: a reference to an object with a value of this type.
    Ref(Box<ValueType>),
}

/// An operator that stands before its operand.
#[derive(Clone, Copy, PartialEq, Eq, Debug)]
pub enum Prefix {
    /// `-`
    Negate,
    /// `get`: the value of the object to which a reference leads.
    Get,
    /// `put`: a new object with that value, and a reference to it.
    Put,
}

/// An operator between two operands.
#[derive(Clone, Copy, PartialEq, Eq, Debug)]
pub enum BinaryOperator {
    /// `+`
    Add,
    /// `-`
    Sub,
    /// `*`
    Mul,
    /// `/`
    Div,
    /// `%`
    Rem,
    /// `==`
    Equal,
    /// `!=`
    NotEqual,
    /// `<`
    Less,
    /// `<=`
    LessEqual,
}

/// The number of new runs that a remote call allows, where it stands.
#[derive(Clone, Copy, PartialEq, Eq, Debug)]
pub struct Retries {
    /// As it is written: whether it is at most 10 is checked later.
    pub number: u64,
    pub span: Span,
}

/// An expression, where it stands: with its parentheses, where it has some.
#[derive(Drop)]
#[cycle(expr)]
pub struct Expr {
    pub kind: ExprKind,
    pub span: Span,
}

/// What an expression is, as it is written: each form of docs/language.md, its operands with their places.
#[derive(Drop)]
#[cycle(expr)]
pub enum ExprKind {
    /// A number of at most 9223372036854775807.
    Int(u64),
    Variable(Name),
    /// What stands before an operand, and the operand.
    Prefixed(Prefix, Box<Expr>),
    /// An operator between its operands, the left one first.
    Binary(BinaryOperator, Box<Expr>, Box<Expr>),
    /// The item of a list at an index.
    Index(Box<Expr>, Box<Expr>),
    /// One item or more.
    List(Vec<Expr>),
    /// The empty list of items of a type.
    Empty(ValueType),
    /// The name of a function, and what it is called with.
    Call(Name, Vec<Expr>),
    /// A call as a task; 3 new runs where no number is written.
    Remote(Option<Retries>, Name, Vec<Expr>),
    /// How many items a list has.
    Len(Box<Expr>),
    /// A list, and the item that is put at its end.
    Push(Box<Expr>, Box<Expr>),
}

/// A statement as it is written, with its names and expressions where they stand.
#[derive(Drop)]
#[cycle(statement)]
pub enum Statement {
    /// A new variable, and its first value.
    Let(Name, Expr),
    /// Two names or more, the first apart, for the results of a call: the function's name, and what it is called with.
    LetCall(Name, Vec<Name>, Name, Vec<Expr>),
    /// The same of a call as a task; 3 new runs where no number is written.
    LetRemote(Name, Vec<Name>, Option<Retries>, Name, Vec<Expr>),
    /// A variable in scope, and its next value.
    Set(Name, Expr),
    /// A condition, its block, and that of `else`, where there is one.
    If(Expr, Block, Option<Block>),
    /// A loop's name, its bounds and its body.
    For(Name, Expr, Expr, Block),
    /// Where `print` stands, and what is printed.
    Print(Span, Expr),
    /// Where `return` stands, the first value, and those of further results.
    Return(Span, Expr, Vec<Expr>),
}

/// Statements in braces.
#[derive(Drop)]
#[cycle(statement)]
pub struct Block {
    /// In the order of the text.
    pub statements: Vec<Statement>,
}

/// A parameter, with its type.
#[derive(Drop)]
pub struct Parameter {
    pub name: Name,
    pub kind: ValueType,
}

/// A function as it is written.
#[derive(Drop)]
pub struct Function {
    pub name: Name,
    /// In the order of the text, at most 16.
    pub parameters: Vec<Parameter>,
    /// The type of its first result.
    pub result: ValueType,
    /// The types of its further results: three at most.
    pub others: Vec<ValueType>,
    pub body: Block,
}

/// A script as it is written.
#[derive(Drop)]
pub struct Program {
    /// In the order of the text, `main` anywhere among them.
    pub functions: Vec<Function>,
}
