// An instruction about to be made.

/// What is told of a value: a number itself, a list's length, and of a reference only that it is one.
#[derive(Clone, Copy, PartialEq, Eq, Debug, Drop)]
pub enum Shown {
    /// The number itself.
    Number(i64),
    /// Of how many items the list is.
    List(usize),
    /// A reference, of which nothing more is told.
    Reference,
}

/// An instruction about to be made, in a code whose instructions are counted from 0.
#[derive(Drop, Debug)]
pub struct Spot {
    /// Where the instruction stands.
    pub pc: usize,
    /// Its first operand's value, where it has one.
    pub left: Option<Shown>,
    /// Its second operand's value, where it has two.
    pub right: Option<Shown>,
    /// Where the calls stand that wait for its function to return, the innermost first.
    pub callers: Vec<usize>,
}
