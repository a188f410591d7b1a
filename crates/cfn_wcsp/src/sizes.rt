//! The domain sizes of a file.

ghost use Rattle.std.specs.Prelude.{◌<◌, ◌≤◌, IfOk};
ghost use Rattle.cfn_model.specs.declared.limits.TheConstants.{MOST_VARIABLES};
ghost use Rattle.cfn_model.specs.Reading.{sizes_at};
ghost use Rattle.cfn_wcsp.specs.Giving.{Gives, state};
ghost use Rattle.cfn_net.specs.Building.{AreSizes};

use crate::fault::ReadFault;
use crate::field::Field;
use crate::numerals::natural;
use cfn_words::Words;
use std::alloc::Global;

/// The domain sizes of so many variables. Memory is taken as they come.
pub(crate) fn domains(
    alloc: Global,
    words: &mut Words<'_>,
    variables: u32,
) -> Result<Vec<u32>, ReadFault>
    requires some { 0 < variables }
    requires few { variables ≤ MOST_VARIABLES }
    ensures gives { Gives (λ v. (v.items, state words.new)) result
        (sizes_at variables (state words.old)) }
    ensures sizes { IfOk result (λ v. AreSizes v.items) }
{
    let mut sizes = Vec::new(alloc);
    for _ in 0..variables {
        sizes.push(natural(words, Field::Domain)? as u32)?;
    }
    Ok(sizes)
}
