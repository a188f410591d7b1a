//! The text of a network: its first line, its domain sizes, and the lines of each function.

ghost use Rattle.std.specs.Prelude.{◌≡◌, ◌<◌, [], ◌∷◌, ◌++◌, decimal, flat_map, fold, length, map, max};
ghost use Rattle.cfn_model.specs.Text.{line, text};
ghost use Rattle.cfn_line.specs.Appending.{Adds, Appends};
ghost use Rattle.cfn_line.specs.declared.channel.Channel.TheVariants.{Screen};
ghost use Rattle.cfn_wcspwrite.specs.Canonical.{canonical, function_lines, head_words};
ghost use Rattle.cfn_wcspwrite.specs.Law.{ReadsBack};

use crate::function::add_function;
use crate::number::{LF, SPACE, add_number, add_numbers};
use cfn_desk::{Desk, Failed};
use cfn_line::Line;
use cfn_net::Network;

/// Says the canonical text of a network (toulbar2 user manual, wcsp format), in pieces of at most 4,096 bytes, a longer
/// name apart. It takes no memory.
///
/// An `Err` is a call of the desk that failed: some front of the text was said, and the rest was not tried.
pub fn write<D: Desk>(network: &Network, desk: &mut D) -> Result<(), Failed>
    ensures { Appends Screen (D.outside desk.old) (canonical network.now) result (D.outside desk.new) }
{
    let mut waiting = Line::new();
    add_network(&mut waiting, network, desk)?;
    waiting.say(desk)
}

/// Nothing: its contract is the law that the canonical text of a network reads as that same network.
pub fn law_reads_back()
    ensures { ReadsBack }
{}

/// Adds the text of a network.
fn add_network<D: Desk>(into: &mut Line, network: &Network, desk: &mut D) -> Result<(), Failed>
    ensures { Adds (D.outside desk.old) into.old (canonical network.now) result
        (D.outside desk.new) into.new }
{
    add_head(into, network, desk)?;
    network.law_limits();
    add_sizes(into, network.sizes(), desk)?;
    add_functions(into, network, desk)
}

/// Adds the first line.
fn add_head<D: Desk>(into: &mut Line, network: &Network, desk: &mut D) -> Result<(), Failed>
    ensures { Adds (D.outside desk.old) into.old (line (head_words network.now)) result
        (D.outside desk.new) into.new }
{
    add_name(into, network.name(), desk)?;
    let counts = [
        network.variables(),
        greatest(network.sizes()),
        network.functions(),
    ];
    add_numbers(into, &counts, desk)?;
    add_number(into, network.ub(), LF, desk)
}

/// Adds a name, with a space behind it.
fn add_name<D: Desk>(into: &mut Line, name: &[u8], desk: &mut D) -> Result<(), Failed>
    ensures { Adds (D.outside desk.old) into.old (name.now ++ 32 ∷ []) result
        (D.outside desk.new) into.new }
{
    into.add(name, desk)?;
    into.add(&[SPACE], desk)
}

/// The greatest of some domain sizes.
fn greatest(sizes: &[u32]) -> u32
    ensures { result ≡ fold max 0 sizes.now }
{
    let mut greatest = 0;
    for size in sizes {
        greatest = greatest.max(*size);
    }
    greatest
}

/// Adds the line of the domain sizes.
fn add_sizes<D: Desk>(into: &mut Line, sizes: &[u32], desk: &mut D) -> Result<(), Failed>
    requires { 0 < length sizes.now }
    ensures { Adds (D.outside desk.old) into.old (line (map decimal sizes.now)) result
        (D.outside desk.new) into.new }
{
    let last = sizes.len() - 1;
    add_numbers(into, &sizes[..last], desk)?;
    add_number(into, u64::from(sizes[last]), LF, desk)
}

/// Adds the lines of the functions.
fn add_functions<D: Desk>(into: &mut Line, network: &Network, desk: &mut D) -> Result<(), Failed>
    ensures { Adds (D.outside desk.old) into.old
        (text (flat_map (function_lines network.now.sizes) network.now.functions)) result
        (D.outside desk.new) into.new }
{
    for f in 0..network.functions() {
        add_function(into, network, f, desk)?;
    }
    Ok(())
}
