//! One cost function of a file: its scope, its default cost and its tuples.

ghost use Rattle.std.specs.Prelude.{◌≡◌, ◌+◌, ◌<◌, ◌≤◌, ◌^◌, length, IfOk, OnOk};
ghost use Rattle.cfn_model.specs.declared.limits.TheConstants.{MOST_CELLS, MOST_FUNCTIONS};
ghost use Rattle.cfn_model.specs.Network.{cells, dims_at};
ghost use Rattle.cfn_model.specs.Reading.{scope_from};
ghost use Rattle.cfn_wcsp.specs.Giving.{Gives, state};
ghost use Rattle.cfn_net.specs.Building.{all_cells, last};
ghost use Rattle.cfn_wcsp.specs.Scopes.{scope_dims};
ghost use Rattle.cfn_wcsp.specs.Tables.{AreNumbers, cell_at, listings_into, table_onto, function_onto, tables_of};

use crate::fault::ReadFault;
use crate::field::Field;
use crate::numerals::{integer, natural, variable};
use crate::scope::Scope;
use crate::sharing::count;
use cfn_net::{Builder, law_listing};
use cfn_words::Words;

/// So many more variables of a scope. Memory is taken as they come.
pub(crate) fn variables(
    words: &mut Words<'_>,
    scope: &mut Scope<'_>,
    arity: u64,
) -> Result<(), ReadFault>
    ensures gives { Gives (λ _. (scope.new.variables, state words.new)) result
        (scope_from scope.old.sizes scope.old.variables arity (state words.old)) }
    ensures sizes { scope.new.sizes ≡ scope.old.sizes }
    ensures number { scope.new.number ≡ scope.old.number }
{
    for _ in 0..arity {
        let x = variable(words, scope)?;
        scope.push(x)?;
    }
    Ok(())
}

/// The cell of the next tuple, which has a value for each variable of the scope.
pub(crate) fn tuple_cell(words: &mut Words<'_>, scope: &Scope<'_>) -> Result<u32, ReadFault>
    ensures gives { Gives (λ cell. (cell, state words.new)) result
        (cell_at (scope_dims scope.now) (state words.old)) }
    ensures below { IfOk result (λ cell. cell < cells (scope_dims scope.now)) }
{
    let sizes = scope.sizes();
    let variables = scope.variables();
    let mut cell = 0;
    for x in variables {
        let size = sizes[*x as usize];
        let value = natural(words, Field::Value { size })? as u32;
        cell = cell * size + value;
    }
    Ok(cell)
}

/// So many listings, each written at its cell of the builder's last function, which has this scope. The
/// last listing of a tuple counts. It takes no memory.
pub(crate) fn listings(
    words: &mut Words<'_>,
    scope: &Scope<'_>,
    builder: &mut Builder,
    count: u64,
) -> Result<(), ReadFault>
    requires some { 0 < length builder.old.functions }
    requires dims { dims_at builder.old (last builder.old) ≡ scope_dims scope.now }
    ensures { Gives (λ _. (builder.new, state words.new)) result
        (listings_into builder.old (scope_dims scope.now) count (state words.old)) }
{
    for _ in 0..count {
        let cell = tuple_cell(words, scope)?;
        let cost = natural(words, Field::Cost)?;
        builder.list(cell, cost);
    }
    Ok(())
}

/// The number of tuples of a function of this arity, scope and default, and the tuples; the function is added to the
/// builder. Where the number is -j it has shared table j, of those of the functions with the numbers in `shared`, and no
/// tuples follow. Its own table is made when it is known to have no shared one.
pub(crate) fn table(
    words: &mut Words<'_>,
    scope: &Scope<'_>,
    builder: &mut Builder,
    shared: &[u32],
    arity: i64,
    default: u64,
) -> Result<(), ReadFault>
    requires sizes { scope.now.sizes ≡ builder.old.sizes }
    requires room { length builder.old.functions < MOST_FUNCTIONS }
    requires cells { all_cells builder.old + cells (scope_dims scope.now) ≤ MOST_CELLS }
    requires shared { AreNumbers builder.old shared.now }
    ensures { Gives (λ _. (builder.new, state words.new)) result
        (table_onto builder.old (tables_of builder.old shared.now) arity scope.now.variables default (state words.old)) }
{
    let count = count(words, scope, builder.network(), shared, arity)?;
    let number = count.unsigned_abs();
    if count < 0 {
        let earlier = shared[number as usize - 1];
        builder.shared(scope.variables(), earlier)?;
        return Ok(());
    }
    builder.begin(scope.variables(), default)?;
    law_listing();
    listings(words, scope, builder, number)
}

/// The next cost function, which is added to the builder. Of the functions before it those with the numbers in `shared`
/// have shared tables, and it joins them where its arity is below 0.
#[tactic(auto, unfolding(cfn_model::specs::Reading::function_from))]
pub(crate) fn function(
    words: &mut Words<'_>,
    scope: &mut Scope<'_>,
    builder: &mut Builder,
    shared: &mut Vec<u32>,
) -> Result<(), ReadFault>
    requires sizes { scope.old.sizes ≡ builder.old.sizes }
    requires number { scope.old.number + 1 < 2 ^ 32 }
    requires room { length builder.old.functions < MOST_FUNCTIONS }
    requires shared { AreNumbers builder.old shared.old.items }
    ensures gives { Gives (λ _. ((builder.new, tables_of builder.new shared.new.items), state words.new)) result
        (function_onto builder.old (tables_of builder.old shared.old.items) (state words.old)) }
    ensures sizes { scope.new.sizes ≡ scope.old.sizes }
    ensures number { OnOk result (scope.new.number ≡ scope.old.number + 1) }
    ensures shared { OnOk result (AreNumbers builder.new shared.new.items) }
{
    let arity = integer(words)?.0;
    scope.clear();
    variables(words, scope, arity.unsigned_abs())?;
    builder.network().law_limits();
    let cells = builder.cells_so_far() + u64::from(scope.cells());
    let default = natural(words, Field::Default { cells })?;
    table(words, scope, builder, shared.as_slice(), arity, default)?;
    if arity < 0 {
        shared.push(builder.functions() - 1)?;
    }
    Ok(())
}
