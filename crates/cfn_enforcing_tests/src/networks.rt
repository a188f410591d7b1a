//! The networks that are asked about.

ghost use Rattle.std.specs.Prelude.{◌≡◌, [], ◌∷◌};

use cfn_net::{Builder, Network};
use std::alloc::{AllocError, Global};

/// Three variables with two values. The value 1 of the first costs so much; 0 and 0 of the first two cost 1, so 0 and 0 of the
/// first and the third, and 1 and 1 of the last two.
pub(crate) fn triangle(alloc: Global, cost: u64) -> Result<Network, AllocError> {
    let mut builder = Builder::make(alloc, b"vac", &[2, 2, 2], 10)?;
    let network = triangle_of(&mut builder, cost);
    drop(builder);
    network
}

/// The network of these functions, where the builder has none yet.
fn triangle_of(builder: &mut Builder, cost: u64) -> Result<Network, AllocError>
    requires sizes { builder.old.sizes ≡ 2 ∷ 2 ∷ 2 ∷ [] }
    requires functions { builder.old.functions ≡ [] }
{
    builder.function(&[0], 0, &[([1].as_slice(), cost)])?;
    builder.function(&[0, 1], 0, &[([0, 0].as_slice(), 1)])?;
    builder.function(&[0, 2], 0, &[([0, 0].as_slice(), 1)])?;
    builder.function(&[1, 2], 0, &[([1, 1].as_slice(), 1)])?;
    builder.finish()
}
