//! The lines of one function: its scope, and a line for each cell whose entry differs from the default.
//!
//! The tuple of a cell is found from the cell's number, digit by digit: each digit is the number divided by how many
//! cells lie behind its place, and the remainder goes on to the next place. So a line takes time for its own length.

ghost use Rattle.std.specs.Prelude.{◌≡◌, ℕ, ◌<◌, [], ◌∷◌, ◌++◌, decimal, length, map, slice_index};
ghost use Rattle.cfn_model.specs.Network.{cells, dims, dims_at, function_at};
ghost use Rattle.cfn_model.specs.Text.{line, text};
ghost use Rattle.cfn_line.specs.Appending.{Adds};
ghost use Rattle.cfn_wcspwrite.specs.Canonical.{cell_lines, cell_words, function_lines, function_words, listed, spaced, tuple_of};

use crate::number::{LF, SPACE, add_number, add_numbers};
use cfn_desk::{Desk, Failed};
use cfn_line::Line;
use cfn_net::Network;

/// Adds the lines of a function.
pub fn add_function<D: Desk>(
    into: &mut Line,
    network: &Network,
    f: u32,
    desk: &mut D,
) -> Result<(), Failed>
    requires { f < length network.now.functions }
    ensures { Adds (D.outside desk.old) into.old
        (text (function_lines network.now.sizes (function_at network.now f))) result (D.outside desk.new) into.new }
{
    add_first_line(into, network, f, desk)?;
    add_cells(into, network, f, desk)
}

/// Adds the first line of a function.
fn add_first_line<D: Desk>(
    into: &mut Line,
    network: &Network,
    f: u32,
    desk: &mut D,
) -> Result<(), Failed>
    requires { f < length network.now.functions }
    ensures { Adds (D.outside desk.old) into.old (line (function_words (function_at network.now f))) result
        (D.outside desk.new) into.new }
{
    let scope = network.scope(f);
    add_number(into, scope.len() as u64, SPACE, desk)?;
    add_numbers(into, scope, desk)?;
    add_number(into, network.default(f), SPACE, desk)?;
    add_number(into, u64::from(count(network, f)), LF, desk)
}

/// How many cells of a function have an entry that differs from the default.
fn count(network: &Network, f: u32) -> u32
    requires { f < length network.now.functions }
    ensures { result ≡ length (listed (function_at network.now f)) }
{
    network.law_limits();
    let mut count = 0;
    for cell in 0..network.cells(f) {
        if network.entry(f, cell) != network.default(f) {
            count += 1;
        }
    }
    count
}

/// Adds a line for each cell whose entry differs from the default.
fn add_cells<D: Desk>(
    into: &mut Line,
    network: &Network,
    f: u32,
    desk: &mut D,
) -> Result<(), Failed>
    requires { f < length network.now.functions }
    ensures { let function = function_at network.now f in
        Adds (D.outside desk.old) into.old (text (map (cell_words network.now.sizes function) (listed function)))
        result (D.outside desk.new) into.new }
{
    network.law_limits();
    for cell in 0..network.cells(f) {
        add_cell(into, network, f, cell, desk)?;
    }
    Ok(())
}

/// Adds the line of a cell, where its entry differs from the default.
fn add_cell<D: Desk>(
    into: &mut Line,
    network: &Network,
    f: u32,
    cell: u32,
    desk: &mut D,
) -> Result<(), Failed>
    requires function { f < length network.now.functions }
    requires cell { cell < cells (dims_at network.now f) }
    ensures { Adds (D.outside desk.old) into.old
        (text (cell_lines network.now.sizes (function_at network.now f) cell)) result (D.outside desk.new) into.new }
{
    network.law_limits();
    let entry = network.entry(f, cell);
    if entry == network.default(f) {
        return Ok(());
    }
    add_tuple(
        into,
        network,
        network.scope(f),
        network.cells(f),
        cell,
        desk,
    )?;
    add_number(into, entry, LF, desk)
}

/// Adds the values of the tuple with a number, each with a space behind it. The scope has so many tuples.
fn add_tuple<D: Desk>(
    into: &mut Line,
    network: &Network,
    scope: &[u32],
    tuples: u32,
    number: u32,
    desk: &mut D,
) -> Result<(), Failed>
    requires scope { (place : ℕ) → place < length scope.now
        → slice_index scope.now place < length network.now.sizes }
    requires tuples { tuples ≡ cells (dims network.now.sizes scope.now) }
    ensures { Adds (D.outside desk.old) into.old (spaced (tuple_of (dims network.now.sizes scope.now) number)) result
        (D.outside desk.new) into.new }
{
    network.law_limits();
    let mut rest = number;
    let mut behind = tuples;
    for x in scope {
        behind /= network.size(*x);
        add_number(into, u64::from(rest / behind), SPACE, desk)?;
        rest %= behind;
    }
    Ok(())
}
