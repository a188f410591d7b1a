//! Which shared table a function of a file has.
//!
//! Of the functions whose tables are shared the reader keeps the numbers, in the order of the file, and no copies: shared
//! table 1 is the table of the first of them.

ghost use Rattle.std.specs.Prelude.{◌≡◌, ℕ, ◌<◌, length, slice_index, nat_eq};
ghost use Rattle.std.specs.Cmp.Lexicographic.{pointwise};
ghost use Rattle.cfn_model.specs.Network.{dims};
ghost use Rattle.cfn_model.specs.Reading.{can_share};
ghost use Rattle.cfn_wcsp.specs.Giving.{Gives, state};
ghost use Rattle.cfn_wcsp.specs.Tables.{AreNumbers, count_at, tables_of};

use crate::fault::ReadFault;
use crate::numerals::{integer, refused};
use crate::scope::Scope;
use cfn_model::{Kind, MOST_CELLS};
use cfn_net::Draft;
use cfn_words::Words;

/// The number of tuples that are listed of a function of this arity and scope, or, below 0, -j for shared table j of those
/// of the functions with these numbers.
pub(crate) fn count(
    words: &mut Words<'_>,
    scope: &Scope<'_>,
    network: &Draft,
    shared: &[u32],
    arity: i64,
) -> Result<i64, ReadFault>
    requires sizes { scope.now.sizes ≡ network.now.sizes }
    requires shared { AreNumbers network.now shared.now }
    ensures gives { Gives (λ count. (count, state words.new)) result
        (count_at network.now.sizes (tables_of network.now shared.now) arity scope.now.variables (state words.old)) }
{
    let (count, ordinal) = integer(words)?;
    if count < 0 && !is_shared(scope, network, shared, arity, count.unsigned_abs()) {
        return Err(refused(Kind::SharedTable, ordinal));
    }
    if count > i64::from(MOST_CELLS) {
        return Err(refused(Kind::TooMany, ordinal));
    }
    Ok(count)
}

/// Whether a function of this arity and scope can have the shared table with a number, counted from 1.
fn is_shared(scope: &Scope<'_>, network: &Draft, shared: &[u32], arity: i64, number: u64) -> bool
    requires sizes { scope.now.sizes ≡ network.now.sizes }
    requires shared { AreNumbers network.now shared.now }
    requires number { 0 < number }
    ensures { result ≡ can_share network.now.sizes (tables_of network.now shared.now) arity scope.now.variables number }
{
    if arity < 0 || number > shared.len() as u64 {
        return false;
    }
    network.law_limits();
    let earlier = network.scope(shared[number as usize - 1]);
    same_sizes(network.sizes(), earlier, scope.variables())
}

/// Whether the variables of two scopes have the same domain sizes, place by place.
fn same_sizes(sizes: &[u32], one: &[u32], other: &[u32]) -> bool
    requires one { (place : ℕ) → place < length one.now → slice_index one.now place < length sizes.now }
    requires other { (place : ℕ) → place < length other.now → slice_index other.now place < length sizes.now }
    ensures { result ≡ pointwise nat_eq (dims sizes.now one.now) (dims sizes.now other.now) }
{
    if one.len() != other.len() {
        return false;
    }
    for (place, x) in one.iter().enumerate() {
        if sizes[*x as usize] != sizes[other[place] as usize] {
            return false;
        }
    }
    true
}
