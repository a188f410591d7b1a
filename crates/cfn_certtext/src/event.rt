//! What the reader of a certificate tells, line by line.

use cfn_model::Version;

/// A step as a certificate's text has it: each number is at most 9,223,372,036,854,775,807, and an amount is at
/// least 1. Whether it is in range is not looked at.
#[derive(Clone, Copy, PartialEq, Eq)]
pub enum StepText {
    /// `p f i a m`
    Project {
        function: u64,
        place: u64,
        value: u64,
        amount: u64,
    },
    /// `e f i a m`
    Extend {
        function: u64,
        place: u64,
        value: u64,
        amount: u64,
    },
    /// `u x m`
    Lift {
        variable: u64,
        amount: u64,
    },
    /// `v x a`
    CutValue {
        variable: u64,
        value: u64,
    },
    /// `t f c`
    CutTuple {
        function: u64,
        cell: u64,
    },
}

/// A decision as a certificate's text has it: each number is at most 9,223,372,036,854,775,807. Whether it is in range
/// is not looked at.
#[derive(Clone, Copy, PartialEq, Eq)]
pub enum DecisionText {
    /// `split x a`
    Is { variable: u64, value: u64 },
    /// `part x v`
    Most { variable: u64, value: u64 },
}

/// What a line of a certificate says, or one value of the line of values.
#[derive(Clone, Copy, PartialEq, Eq)]
pub enum Item {
    /// The version of the text.
    Version(Version),
    /// How many variables and functions the network has, and its upper bound.
    Network {
        variables: u64,
        functions: u64,
        upper: u64,
    },
    /// The lower bound.
    Lower(u64),
    /// No best assignment is known.
    NoBest,
    /// The cost of the best assignment. Its values follow.
    Best(u64),
    /// The next value of the best assignment.
    Value(u64),
    /// The tree begins.
    Tree,
    /// A step of the block of a node.
    Step(StepText),
    /// The node is an open leaf.
    Open,
    /// The node is a closed leaf.
    Closed,
    /// The node is a split, whose first side follows, and then its second.
    Split(DecisionText),
    /// The text ends.
    End,
    /// Nothing follows.
    Over,
}

/// What a line says, and its number, counted from 1. At `Over` it is the number of the last line.
#[derive(Clone, Copy, PartialEq, Eq)]
pub struct Event {
    pub line: u64,
    pub item: Item,
}

/// The first line that does not follow the grammar, counted from 1. A missing line has the number that it would
/// have, and what follows the last line is a line.
#[derive(Clone, Copy, Debug, PartialEq, Eq)]
pub struct TextFault {
    pub line: u64,
}
