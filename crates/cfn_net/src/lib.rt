//! Weighted constraint networks: domains, cost functions as tables, and the cost of an assignment.
//!
//! - `Builder` makes a network, a function at a time, and `listing_law` is the law of listing one tuple at a time. A
//!   `Draft` is what is built so far.
//! - `Network` does not change once it is built. Its model is the definition's own record, so that contracts speak of
//!   networks as `cfn_model` defines them. `Fit` is what it says of an assignment.
//! - `Listed` is what a network keeps of a function of which few entries differ from its default, and `Tables` has all
//!   entries of such functions, for those who go over them.
//! - `Cost` is a number of cost units that is capped at a top, as the cost of an assignment is at the upper bound.
//! - `Scored` holds one assignment with its cost.
//!
//! Inside, a function is kept as its scope, its default and the number of its table (`kept.rt`), and lent with the table
//! itself (`function.rt`). A table is dense or sparse (`table.rt`, `sparse.rt`). The last function of a draft is dense
//! (`open.rt`).
#![tactic(auto)]

mod builder;
mod cost;
mod draft;
mod fit;
mod function;
mod kept;
mod network;
mod open;
mod scored;
mod snapshot;
mod sparse;
mod table;
mod tables;

pub use builder::{Builder, law_listing};
pub use cost::Cost;
pub use draft::Draft;
pub use fit::Fit;
pub use network::Network;
pub use scored::Scored;
pub use snapshot::NetworkSnapshot;
pub use sparse::Listed;
pub use tables::Tables;
