// The tree of a checked script, without places in the text.

use script_syntax::ValueType;

/// An operator that stands before its operand.
#[derive(Clone, Copy, PartialEq, Eq, Debug)]
pub enum UnaryOperator {
    /// `-`, of a number.
    Negate,
    /// `len`, of a list.
    Len,
}

/// An operator of two operands.
#[derive(Clone, Copy, PartialEq, Eq, Debug)]
pub enum Operator {
    /// `+`
    Add,
    /// `-`
    Sub,
    /// `*`
    Mul,
    /// `/`, rounded to zero.
    Div,
    /// `%`, with the sign of what is divided.
    Rem,
    /// `==`: 1 or 0, as the other comparisons.
    Equal,
    /// `!=`
    NotEqual,
    /// `<`
    Less,
    /// `<=`
    LessEqual,
    /// The item of a list at an index.
    Item,
    /// A list with an item put at its end.
    Push,
}

/// An expression of which every part has the type that its place asks for.
#[derive(Drop)]
pub enum CheckedExpr {
    Int(i64),
    Variable(String),
    /// An operator before its operand.
    Unary(UnaryOperator, Box<CheckedExpr>),
    /// An operator with both its operands, the left one first.
    Binary(Operator, Box<CheckedExpr>, Box<CheckedExpr>),
    /// One item or more, all of one type.
    List(Vec<CheckedExpr>),
    /// The empty list of items of a type.
    Empty(ValueType),
    /// A plain call: the function's name, and its arguments.
    Call(String, Vec<CheckedExpr>),
    /// A call as a task: how many new runs it allows, its function, and its arguments, each
    /// marked `true` where it is a reference that is dereferenced before the body.
    Remote(u8, String, Vec<bool>, Vec<CheckedExpr>),
    /// A put of a value, which gives a reference.
    Put(Box<CheckedExpr>),
    /// A get of a reference, with the type of the value that it gives.
    Get(ValueType, Box<CheckedExpr>),
}

/// A statement whose names are in scope and whose expressions have the types that are asked for.
#[derive(Drop)]
#[cycle(statement)]
pub enum CheckedStatement {
    /// A new variable, and its first value.
    Let(String, CheckedExpr),
    /// Two names or more, the first apart, for the results of a plain call: the function's name, and what it is called with.
    LetCall(String, Vec<String>, String, Vec<CheckedExpr>),
    /// The same of a remote call, which gives a reference for each result: the new runs that it allows, the function's name, which arguments are
    /// dereferenced before the body, and the arguments.
    LetRemote(String, Vec<String>, u8, String, Vec<bool>, Vec<CheckedExpr>),
    /// A variable in scope, and its next value.
    Set(String, CheckedExpr),
    /// A print, which stands in main alone.
    Print(CheckedExpr),
    /// A value for each result.
    Return(Vec<CheckedExpr>),
    /// A condition, and the two blocks; the second is empty where none was written.
    If(CheckedExpr, CheckedBlock, CheckedBlock),
    /// A loop's name, its bounds and its body.
    For(String, CheckedExpr, CheckedExpr, CheckedBlock),
}

/// Statements in braces.
#[derive(Drop)]
#[cycle(statement)]
pub struct CheckedBlock {
    /// In the order of the text.
    pub statements: Vec<CheckedStatement>,
}

/// A parameter, with its type.
#[derive(Drop)]
pub struct CheckedParameter {
    pub name: String,
    pub kind: ValueType,
}

/// A function whose body returns on each way through it.
#[derive(Drop)]
pub struct CheckedFunction {
    pub name: String,
    /// In the order of the text, each of another name.
    pub parameters: Vec<CheckedParameter>,
    /// The type of its first result.
    pub result: ValueType,
    /// The types of its further results: three at most.
    pub others: Vec<ValueType>,
    pub body: CheckedBlock,
}
