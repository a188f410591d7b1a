//! A whole file, from its header to its last clause.

ghost use Rattle.std.specs.Prelude.{◌≡◌, ◌+◌, ◌<◌, ◌≤◌, length, None, IfOk, OnOk};
ghost use Rattle.cfn_model.specs.declared.limits.TheConstants.{MOST_CELLS, MOST_FUNCTIONS};
ghost use Rattle.cfn_wcsp.specs.Giving.{Gives as WordGives};
ghost use Rattle.cfn_wcnf.specs.Clauses.{clause_cells};
ghost use Rattle.cfn_wcnf.specs.Reading.{check_number, keyword_at, reading};
ghost use Rattle.cfn_wcnf.specs.Gathering.{IsBinary, clause_onto, clauses_onto, gathered_at, integer_at, network_at};
ghost use Rattle.cfn_wcnf.specs.Giving.{Gives};

use crate::clause::{Clause, is_end};
use crate::fault::{ReadFault, Unread};
use crate::tokens::Tokens;
use cfn_net::{Builder, Network};
use cfn_wcsp::{Field, ReadFault as WordFault, numeral, refused};
use std::alloc::Global;

/// The next number of a clause, which passes its check.
fn number(tokens: &mut Tokens<'_>, clause: &Clause, cells: u64) -> Result<i64, WordFault>
    requires { cells ≤ MOST_CELLS }
    ensures gives { WordGives (λ z. (z, tokens.new)) result
        (integer_at (check_number clause.now.variables cells clause.now.occurrences) tokens.old) }
    ensures passed { IfOk result (λ z. check_number clause.now.variables cells clause.now.occurrences z ≡ None) }
{
    let (word, ordinal) = tokens.word()?;
    let number = numeral(word, ordinal)?;
    match clause.check(number, cells) {
        Some(kind) => Err(refused(kind, ordinal)),
        None => Ok(number),
    }
}

/// The literals of a clause up to its 0, behind those that it has. They take no memory.
fn literals(tokens: &mut Tokens<'_>, clause: &mut Clause, cells: u64) -> Result<(), WordFault>
    requires { cells ≤ MOST_CELLS }
    ensures gives { WordGives (λ _. (clause.new.occurrences, tokens.new)) result
        (gathered_at clause.old.variables cells clause.old.occurrences tokens.old) }
    ensures variables { clause.new.variables ≡ clause.old.variables }
    ensures room { OnOk result (cells + clause_cells clause.new.occurrences ≤ MOST_CELLS) }
{
    loop {
        let number = number(tokens, clause, cells)?;
        if is_end(number) {
            return Ok(());
        }
        clause.add(number);
    }
}

/// The next clause, which is added to the builder as a function. Its table is made when its 0 has been read.
#[tactic(auto, unfolding(crate::specs::Reading::clause_from))]
fn clause(tokens: &mut Tokens<'_>, builder: &mut Builder) -> Result<(), WordFault>
    requires binary { IsBinary builder.old }
    requires room { length builder.old.functions < MOST_FUNCTIONS }
    ensures { WordGives (λ _. (builder.new, tokens.new)) result (clause_onto builder.old tokens.old) }
{
    let weight = tokens.natural(Field::Cost)?;
    builder.network().law_limits();
    let mut clause = Clause::new(builder.network().variables());
    literals(tokens, &mut clause, builder.cells_so_far())?;
    clause.add_to(builder, weight)?;
    Ok(())
}

/// So many clauses, which are added to the builder as functions.
fn clauses(tokens: &mut Tokens<'_>, builder: &mut Builder, count: u32) -> Result<(), WordFault>
    requires binary { IsBinary builder.old }
    requires room { length builder.old.functions + count ≤ MOST_FUNCTIONS }
    ensures { WordGives (λ _. (builder.new, tokens.new)) result (clauses_onto builder.old count tokens.old) }
{
    for _ in 0..count {
        clause(tokens, builder)?;
    }
    Ok(())
}

/// The network that the words behind a file's header say.
#[tactic(auto, unfolding(crate::specs::Reading::formula_at))]
fn network(alloc: Global, tokens: &mut Tokens<'_>) -> Result<Network, WordFault>
    ensures { WordGives (λ network. network) result (network_at tokens.old) }
{
    let variables = tokens.natural(Field::Variables)?;
    let count = tokens.natural(Field::Functions)? as u32;
    let top = tokens.natural(Field::Cost)?;
    let sizes = vec![in alloc; 2; variables as usize]?;
    let mut builder = Builder::make(alloc, b"wcnf", &sizes, top)?;
    clauses(tokens, &mut builder, count)?;
    Ok(builder.finish()?)
}

/// The next word, which has to be this one.
fn keyword(tokens: &mut Tokens<'_>, key: &[u8]) -> Result<(), ReadFault>
    ensures { Gives (λ _. tokens.new) result (keyword_at key.now tokens.old) }
{
    let (word, ordinal) = tokens.word()?;
    if word == key {
        Ok(())
    } else {
        Err(ReadFault::Unread(Unread::Header(ordinal)))
    }
}

/// The network that a wcnf file with a top says, or why the file is refused: the first word that fails a check, counted
/// from 1, and the check (weighted partial MaxSAT, MaxSAT Evaluations).
pub fn read(alloc: Global, bytes: &[u8]) -> Result<Network, ReadFault>
    ensures { Gives (λ network. network) result (reading bytes.now) }
{
    let mut tokens = Tokens::new(bytes);
    keyword(&mut tokens, b"p")?;
    keyword(&mut tokens, b"wcnf")?;
    Ok(network(alloc, &mut tokens)?)
}
