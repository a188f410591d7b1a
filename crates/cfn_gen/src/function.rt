//! One function whose costs are drawn, a cell at a time.

ghost use Rattle.std.specs.Prelude.{◌≡◌, ◌≤◌, OnOk};
ghost use Rattle.cfn_model.specs.Network.{cells, dims};
ghost use Rattle.cfn_net.specs.Building.{CanTake, with_function};
ghost use Rattle.cfn_gen.specs.Generator.{after, drawn};

use crate::draws::Draws;
use cfn_net::{Builder, law_listing};
use std::alloc::AllocError;

/// Adds the function of a scope that has so many tuples, which costs a draw at each of them. Its default is 0.
pub fn add_drawn(
    builder: &mut Builder,
    scope: &[u32],
    tuples: u32,
    draws: &mut Draws,
) -> Result<(), AllocError>
    requires room { CanTake builder.old scope.now }
    requires tuples { tuples ≡ cells (dims builder.old.sizes scope.now) }
    requires upper { 9 ≤ builder.old.upper }
    ensures added { OnOk result (builder.new ≡ with_function builder.old
        (record { scope = scope.now; default = 0; entries = drawn draws.old tuples })) }
    ensures state { OnOk result (draws.new ≡ after draws.old tuples) }
{
    builder.begin(scope, 0)?;
    law_listing();
    for cell in 0..tuples {
        let cost = draws.take();
        builder.list(cell, cost);
    }
    Ok(())
}
