//! A split whose second side is still to come.

use crate::ledger::Mark;
use cfn_model::Decision;

/// Where the path stood at the split, and its decision.
#[derive(Clone, Copy)]
pub(crate) struct Owed {
    pub(crate) mark: Mark,
    pub(crate) decision: Decision,
}
