//! The functions of all variables, and of all pairs of variables so far apart.

ghost use Rattle.std.specs.Prelude.{◌≡◌, ◌+◌, ◌-◌, ◌*◌, ◌<◌, ◌≤◌, length, OnOk};
ghost use Rattle.cfn_gen.specs.Generator.{after, pairs, singles};
ghost use Rattle.cfn_gen.specs.Building.{IsTrial, with_functions};

use crate::draws::Draws;
use crate::function::add_drawn;
use cfn_net::Builder;
use std::alloc::AllocError;

/// Adds a function of each variable.
pub fn add_singles(builder: &mut Builder, size: u32, draws: &mut Draws) -> Result<(), AllocError>
    requires trial { IsTrial size builder.old }
    requires few { length builder.old.functions + size ≤ 600 }
    ensures added { OnOk result (builder.new ≡ with_functions builder.old (singles draws.old size)) }
    ensures state { OnOk result (draws.new ≡ after draws.old (3 * size)) }
    ensures trial { OnOk result (IsTrial size builder.new) }
{
    for x in 0..size {
        add_drawn(builder, &[x], 3, draws)?;
    }
    Ok(())
}

/// Adds a function of each variable and the one so far behind it, where there is one.
pub fn add_pairs(
    builder: &mut Builder,
    size: u32,
    apart: u32,
    draws: &mut Draws,
) -> Result<(), AllocError>
    requires trial { IsTrial size builder.old }
    requires few { length builder.old.functions + size ≤ 600 }
    requires apart { 0 < apart }
    ensures added { OnOk result (builder.new ≡ with_functions builder.old (pairs draws.old apart (size - apart))) }
    ensures state { OnOk result (draws.new ≡ after draws.old (9 * (size - apart))) }
    ensures trial { OnOk result (IsTrial size builder.new) }
{
    for x in 0..size.saturating_sub(apart) {
        add_drawn(builder, &[x, x + apart], 9, draws)?;
    }
    Ok(())
}
