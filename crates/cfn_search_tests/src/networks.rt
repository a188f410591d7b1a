//! The networks that are searched.

ghost use Rattle.std.specs.Prelude.{◌≡◌, [], ◌∷◌};

use cfn_net::{Builder, Network};
use std::alloc::{AllocError, Global};

/// One variable with two values, of costs 3 and 1.
pub(crate) fn tiny(alloc: Global) -> Result<Network, AllocError> {
    let mut builder = Builder::make(alloc, b"tiny", &[2], 10)?;
    builder.function(&[0], 3, &[([1].as_slice(), 1)])?;
    builder.finish()
}

/// Three variables with two values, of which each two cost 1 where they agree.
pub(crate) fn tri(alloc: Global) -> Result<Network, AllocError> {
    let mut builder = Builder::make(alloc, b"tri", &[2, 2, 2], 10)?;
    let network = tri_of(&mut builder);
    drop(builder);
    network
}

/// The network of these functions, where the builder has none yet.
fn tri_of(builder: &mut Builder) -> Result<Network, AllocError>
    requires sizes { builder.old.sizes ≡ 2 ∷ 2 ∷ 2 ∷ [] }
    requires functions { builder.old.functions ≡ [] }
{
    let agree = [([0, 0].as_slice(), 1), ([1, 1].as_slice(), 1)];
    builder.function(&[0, 1], 0, &agree)?;
    builder.function(&[0, 2], 0, &agree)?;
    builder.function(&[1, 2], 0, &agree)?;
    builder.finish()
}
