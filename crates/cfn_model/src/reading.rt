//! Why a file is refused.

/// Why a word is no number that a file may have.
#[derive(Clone, Copy, Debug, PartialEq, Eq)]
pub enum NumberFault {
    /// It is not an optional `-` and one or more decimal digits.
    NotNumber,
    /// Its absolute value is above `GREATEST`.
    TooLarge,
}

/// What is wrong with the first word of a wcsp file that fails a check.
#[derive(Clone, Copy, Debug, PartialEq, Eq)]
pub enum Kind {
    /// The word is missing.
    Short,
    /// The word is no number.
    NotNumber,
    /// The absolute value of the number is above `GREATEST`.
    TooLarge,
    /// The network has no variables.
    NoVariables,
    /// The number of cost functions is negative.
    NegativeCount,
    /// A domain is empty.
    EmptyDomain,
    /// A domain is an interval (a negative domain size).
    IntervalDomain,
    /// A domain has more than `MOST_VALUES` values.
    DomainTooLarge,
    /// A cost is negative.
    NegativeCost,
    /// A function is given by a keyword (a default cost of -1).
    Keyword,
    /// A negative number of tuples names no shared table that the function can have.
    SharedTable,
    /// A scope names a variable that is not there.
    VariableOutOfRange,
    /// A scope names a variable twice.
    RepeatedVariable,
    /// A tuple has a value that its variable lacks.
    ValueOutOfRange,
    /// A function has more than `MOST_TUPLES` tuples.
    TableTooWide,
    /// There are more variables, functions, tuples or cells than the solver takes.
    TooMany,
}

/// The first word that fails, counted from 1, and why. A missing word has the number that it would have.
#[derive(Clone, Copy, Debug, PartialEq, Eq)]
pub struct Refusal {
    pub kind: Kind,
    pub ordinal: u64,
}
