//! The numbers of a wcsp file, and the checks of each, apart from a function's arity, variables and number of tuples.

ghost use Rattle.std.specs.Prelude.{◌≡◌};
ghost use Rattle.cfn_wcsp.specs.Fields.{check_of};

use cfn_model::{Kind, MOST_CELLS, MOST_FUNCTIONS, MOST_VALUES, MOST_VARIABLES};

/// What a number of the file says.
#[derive(Clone, Copy)]
pub enum Field {
    /// The number of variables.
    Variables,
    /// The greatest domain size.
    Widest,
    /// The number of cost functions.
    Functions,
    /// A cost, which the upper bound is too.
    Cost,
    /// A domain size.
    Domain,
    /// The default cost of a function, where the functions so far, this one included, have so many
    /// cells.
    Default { cells: u64 },
    /// A value of a tuple, where its variable has so many values.
    Value { size: u32 },
}

impl Field {
    /// The first check that a number fails in this field, if it fails one.
    pub fn check(self, number: i64) -> Option<Kind>
        ensures { result ≡ check_of self number }
    {
        match self {
            Field::Variables if number < 1 => Some(Kind::NoVariables),
            Field::Variables if number > i64::from(MOST_VARIABLES) => Some(Kind::TooMany),
            Field::Widest if number < 0 => Some(Kind::IntervalDomain),
            Field::Widest if number < 1 => Some(Kind::EmptyDomain),
            Field::Functions if number < 0 => Some(Kind::NegativeCount),
            Field::Functions if number > i64::from(MOST_FUNCTIONS) => Some(Kind::TooMany),
            Field::Cost if number < 0 => Some(Kind::NegativeCost),
            Field::Domain if number < 0 => Some(Kind::IntervalDomain),
            Field::Domain if number < 1 => Some(Kind::EmptyDomain),
            Field::Domain if number > i64::from(MOST_VALUES) => Some(Kind::DomainTooLarge),
            Field::Default { .. } if number == -1 => Some(Kind::Keyword),
            Field::Default { .. } if number < 0 => Some(Kind::NegativeCost),
            Field::Default { cells } if cells > u64::from(MOST_CELLS) => Some(Kind::TooMany),
            Field::Value { size } if number < 0 || number >= i64::from(size) => {
                Some(Kind::ValueOutOfRange)
            }
            _ => None,
        }
    }
}
