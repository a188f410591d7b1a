//! The law that a file's network has, the contract of a function with nothing to do.

ghost use Rattle.cfn_wcnf.specs.Laws.{ReadsAsFormula};

/// Where a file reads as a network, an assignment costs the weights of the clauses that it falsifies, added up, or the
/// top where that is less (weighted partial MaxSAT, MaxSAT Evaluations).
pub fn law_falsified_weight()
    ensures { ReadsAsFormula }
{}
