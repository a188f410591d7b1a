//! One shift of costs or one cut, the decision of a split, and what happens along a path of the search tree.

/// A step of soft arc consistency (Cooper et al. 2010): a shift of costs that keeps the cost of every
/// assignment, or a cut of what no assignment below the threshold uses.
#[derive(Clone, Copy, Debug, PartialEq, Eq)]
pub enum Step {
    /// Moves `amount` from each tuple of `function` that has `value` at `place` to that value's unary cost.
    Project {
        function: u32,
        place: u32,
        value: u32,
        amount: u64,
    },
    /// Moves `amount` from a value's unary cost to each tuple of `function` that has it at `place`.
    Extend {
        function: u32,
        place: u32,
        value: u32,
        amount: u64,
    },
    /// Moves `amount` from the unary cost of each value of `variable` to the floor (unary project).
    Lift {
        variable: u32,
        amount: u64,
    },
    /// Takes `value` from `variable`.
    CutValue {
        variable: u32,
        value: u32,
    },
    /// Takes the tuple of `function` with the number `cell`.
    CutTuple {
        function: u32,
        cell: u32,
    },
}

/// A decision of a split: whether a variable has one of some of its values. Those are the first side, the others
/// the second.
#[derive(Clone, Copy, Debug, PartialEq, Eq)]
pub enum Decision {
    /// `variable` has `value`.
    Is { variable: u32, value: u32 },
    /// `variable` has at most `value`.
    Most { variable: u32, value: u32 },
}

/// What happens along a path from the root: a step, or a side of a split.
#[derive(Clone, Copy, Debug, PartialEq, Eq)]
pub enum Event {
    /// A step was made.
    Did(Step),
    /// The first side of a split: the decision holds.
    Took(Decision),
    /// The second side of a split: the decision fails.
    Refused(Decision),
}
