//! Tests of runs of `rebase` and `merge` over certificates of hostile content, and of command lines, and no code of its own.
//!
//! - `fronts`, `trees`, `deep`, `rebasing` and `merging` say what is kept of such certificates, which are refused, and where; `texts` has
//!   what they share.
//! - `words` says which words are which command, and which are none.
#![tactic(auto)]

#[cfg(test)]
mod deep;
#[cfg(test)]
mod fronts;
#[cfg(test)]
mod merging;
#[cfg(test)]
mod rebasing;
#[cfg(test)]
mod texts;
#[cfg(test)]
mod trees;
#[cfg(test)]
mod words;
