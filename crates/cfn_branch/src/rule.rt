//! The rules by which a search may name its splits.

/// By which rule a search names the decision of a split.
#[derive(Clone, Copy, PartialEq, Eq)]
pub enum Rule {
    /// The variable of the least ratio of live values to weighted degree, as `choose` names it.
    Degrees,
    /// The variable of the fewest live values, which are halved where there are many, as `split_fewest` says.
    Fewest,
}
