//! Small networks, and certificates of theirs.

ghost use Rattle.std.specs.Prelude.{◌≡◌, [], ◌∷◌};

use cfn_net::{Builder, Network};
use std::alloc::{AllocError, Global};

/// One variable with two values, of the costs 3 and that, below 10.
pub(crate) fn tiny(alloc: Global, cost: u64) -> Result<Network, AllocError> {
    let mut builder = Builder::make(alloc, b"tiny", &[2], 10)?;
    builder.function(&[0], 3, &[([1].as_slice(), cost)])?;
    builder.finish()
}

/// Three variables with two values, of which each two cost this where they agree.
pub(crate) fn tri(alloc: Global, cost: u64) -> Result<Network, AllocError> {
    let mut builder = Builder::make(alloc, b"tri", &[2, 2, 2], 10)?;
    let network = tri_of(&mut builder, cost);
    drop(builder);
    network
}

/// The network of these functions, where the builder has none yet.
fn tri_of(builder: &mut Builder, cost: u64) -> Result<Network, AllocError>
    requires sizes { builder.old.sizes ≡ 2 ∷ 2 ∷ 2 ∷ [] }
    requires functions { builder.old.functions ≡ [] }
{
    let agree = [([0, 0].as_slice(), cost), ([1, 1].as_slice(), cost)];
    builder.function(&[0, 1], 0, &agree)?;
    builder.function(&[0, 2], 0, &agree)?;
    builder.function(&[1, 2], 0, &agree)?;
    builder.finish()
}

/// The certificate of `tiny` where the second value costs 1.
pub(crate) const TINY: &[u8] =
    b"wcspcert 2\nnetwork 1 1 10\nlower 1\nbest 1\nvalues 1\ntree\np 0 0 0 3\np 0 0 1 1\nu 0 1\nclosed\nend\n";

/// The certificate of `tri` where each cost is 1.
pub(crate) const TRI: &[u8] =
    b"wcspcert 2\nnetwork 3 3 10\nlower 1\nbest 1\nvalues 0 0 1\ntree\nsplit 0 0\np 0 1 0 1\np 1 1 0 1\ne 2 1 0 1\np 2 0 1 1\nu 1 1\nsplit 1 0\np 2 1 0 2\nsplit 2 1\nclosed\nclosed\nclosed\np 0 1 1 1\nv 1 1\np 1 1 1 1\nv 2 1\np 2 0 0 1\nv 1 0\nclosed\nend\n";
