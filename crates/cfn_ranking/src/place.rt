//! Where an assignment goes in the list.

ghost use Rattle.std.specs.Prelude.{◌≡◌, ◌↔◌, IfSome, IsTrue};
ghost use Rattle.cfn_ranking.specs.Certificates.{solution_of, solutions_of};
ghost use Rattle.cfn_best.specs.List.{IsBefore};
ghost use Rattle.cfn_ranking.specs.Changes.{IsPlaceOf};

use crate::Listed;

/// The place of an assignment in an ordered list, where it is not in it.
pub(crate) fn place_of(list: &[Listed], cost: u64, values: &[u32]) -> Option<usize>
    ensures { IfSome result (IsPlaceOf (solutions_of list.now) (record { cost = cost; values = values.now })) }
{
    for i in 0..list.len() {
        let listed = &list[i];
        if !comes_before(listed.cost, &listed.values, cost, values) {
            if comes_before(cost, values, listed.cost, &listed.values) {
                return Some(i);
            }
            return None;
        }
    }
    Some(list.len())
}

/// Whether an assignment comes before another: it costs less, or as much, and the first value in which they differ is less.
fn comes_before(cost: u64, values: &[u32], other_cost: u64, others: &[u32]) -> bool
    ensures { IsTrue result ↔ IsBefore (record { cost = cost; values = values.now }) (record { cost = other_cost; values = others.now }) }
{
    let by_cost = cost.cmp(&other_cost);
    let by_values = values.cmp(others);
    by_cost.then(by_values).is_lt()
}
