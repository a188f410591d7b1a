//! A whole file, from its name to its last cost function.

ghost use Rattle.std.specs.Prelude.{◌≡◌, ◌+◌, ◌<◌, ◌≤◌, ◌^◌, [], length};
ghost use Rattle.cfn_model.specs.declared.limits.TheConstants.{MOST_FUNCTIONS};
ghost use Rattle.cfn_model.specs.Reading.{network_at, reading};
ghost use Rattle.cfn_wcsp.specs.Giving.{Gives, state};
ghost use Rattle.cfn_wcsp.specs.Tables.{functions_onto};

use crate::fault::ReadFault;
use crate::field::Field;
use crate::numerals::{natural, word};
use crate::scope::Scope;
use crate::sizes::domains;
use crate::tables::function;
use cfn_net::{Builder, Network};
use cfn_words::Words;
use std::alloc::Global;

/// So many cost functions, which are added to the builder. The numbers of those whose tables are shared are kept.
fn functions(
    alloc: Global,
    words: &mut Words<'_>,
    scope: &mut Scope<'_>,
    builder: &mut Builder,
    count: u32,
) -> Result<(), ReadFault>
    requires sizes { scope.old.sizes ≡ builder.old.sizes }
    requires number { scope.old.number + count < 2 ^ 32 }
    requires room { length builder.old.functions + count ≤ MOST_FUNCTIONS }
    ensures { Gives (λ _. (builder.new, state words.new)) result
        (functions_onto builder.old [] count (state words.old)) }
{
    let mut shared = Vec::new(alloc);
    for _ in 0..count {
        function(words, scope, builder, &mut shared)?;
    }
    Ok(())
}

/// The network that the words of a file say.
#[tactic(auto, unfolding(cfn_model::specs::Reading::network_at))]
fn network(alloc: Global, words: &mut Words<'_>) -> Result<Network, ReadFault>
    ensures { Gives (λ network. network) result (network_at (state words.old)) }
{
    let name = word(words)?.0;
    let variables = natural(words, Field::Variables)? as u32;
    let _widest = natural(words, Field::Widest)?;
    let count = natural(words, Field::Functions)? as u32;
    let upper = natural(words, Field::Cost)?;
    let sizes = domains(alloc, words, variables)?;
    let mut builder = Builder::make(alloc, name, &sizes, upper)?;
    let mut scope = Scope::new(alloc, &sizes)?;
    functions(alloc, words, &mut scope, &mut builder, count)?;
    Ok(builder.finish()?)
}

/// The network that a wcsp file says, or why the file is refused: the first word that fails a check,
/// counted from 1, and the check (toulbar2 user manual, wcsp format).
///
/// A file has its name, the number of variables, the greatest domain size (which is not used), the
/// number of cost functions, the upper bound, the domain sizes and the cost functions. A cost function
/// has its arity, its variables, its default cost, the number of its tuples, and the tuples, each with
/// its cost. A negative arity -r is that of a function of r variables whose table becomes shared, and a
/// number of tuples -j gives a function the default cost and the entries of shared table j, counted from
/// 1, in place of tuples. White space of any kind stands between words, and what follows the last function
/// is not looked at. A missing word is refused at the number that it would have.
///
/// The time is linear in the bytes and the cells of the tables. Memory is taken as words come, and for
/// a table when its number of tuples has been read. So a number of variables, functions or tuples that the
/// file merely claims takes none; but a table takes as much as the domain sizes make cells.
pub fn read(alloc: Global, bytes: &[u8]) -> Result<Network, ReadFault>
    ensures { Gives (λ network. network) result (reading bytes.now) }
{
    network(alloc, &mut Words::new(bytes))
}
