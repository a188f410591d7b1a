//! The search from its beginning to its end.

ghost use Rattle.std.specs.Prelude.{◌≡◌, ◌≤◌, ◌^◌, true, is_some, [], IfOk, IfSome, OnOk};
ghost use Rattle.cfn_model.specs.declared.limits.TheConstants.{GREATEST};
ghost use Rattle.cfn_model.specs.Network.{Network};
ghost use Rattle.cfn_model.specs.Paths.{HasSmallCosts};
ghost use Rattle.cfn_model.specs.Sums.{floor};
ghost use Rattle.cfn_dive.specs.Diving.{IsOf};
ghost use Rattle.cfn_ranking.specs.Ranked.{IsRanked};
ghost use Rattle.cfn_kbest.specs.Steps.{AreMarked};
ghost use Rattle.cfn_kbest.specs.Searching.{IsBestOf, word_of as the_word};

use crate::dive::Dive;
use crate::steps::{go_on, turn};
use cfn_branch::Rule;
use cfn_dive::Parts;
use cfn_explore::{Halt, Past};
use cfn_net::{Network, Scored, Tables};
use cfn_ranking::{BestCertificate, ListWord, Ranking};
use cfn_store::Store;
use std::alloc::{AllocError, Global};

/// How many assignments are asked for, and how many leaves may be expanded.
#[derive(Clone, Copy)]
pub struct Limits {
    /// 1 to 2^32.
    pub count: usize,
    /// 0 to 2^63 - 1.
    pub budget: u64,
}

/// A list of the cheapest assignments with its certificate, how the search ended, and how many leaves it has expanded.
#[derive(Drop)]
pub struct Best {
    pub certificate: BestCertificate,
    pub word: ListWord,
    pub spent: u64,
}

/// Searches for the cheapest assignments of a network on the caller's thread: as many as are asked for, or all below the
/// network's upper bound where there are fewer (after Allouche et al. 2015, with as many incumbents as are asked for). It ends when
/// no leaf is open, or as many leaves were expanded as are allowed, or `halt` is past, which is asked ahead of each expansion, or
/// memory is refused: the list and its bounds are true then too. An `Err` is want of memory before the search stands.
pub fn kbest<H: Halt>(
    alloc: Global,
    network: &Network,
    limits: Limits,
    halt: &H,
) -> Result<Best, AllocError>
    requires some { 1 ≤ limits.count }
    requires few { limits.count ≤ 2 ^ 32 }
    requires budget { limits.budget ≤ GREATEST }
    ensures { IfOk result (IsBestOf network.now limits.count limits.budget (H.limited halt.now)) }
{
    let tables = Tables::expand(alloc, network)?;
    let low = root_floor(alloc, network, &tables)?;
    let mut ranking = Ranking::make(alloc, network, limits.count, low)?;
    let mut best = Scored::empty(alloc, network)?;
    let mut parts = Parts::make(alloc, network, &tables, Rule::Degrees)?;
    let past = search(
        alloc,
        network,
        &mut parts,
        &mut ranking,
        &mut best,
        limits.budget,
        halt,
    );
    drop(parts);
    Ok(ended(network, ranking, limits.budget, past))
}

/// The floor at the root of the network's tree. An `Err` is want of memory.
fn root_floor(alloc: Global, network: &Network, tables: &Tables) -> Result<u128, AllocError>
    requires { tables.now ≡ network.now }
    ensures floor { IfOk result (λ low. low ≡ floor network.now []) }
    ensures small { OnOk result (HasSmallCosts network.now []) }
{
    let root = Store::over(alloc, network, tables)?;
    root.law_exact();
    Ok(root.floor())
}

/// Expands leaves until none waits below the threshold, or as many were expanded as are allowed, or memory is refused, or `halt`
/// is past: then it answers that.
fn search<H: Halt>(
    alloc: Global,
    network: &Network,
    parts: &mut Parts<'_>,
    ranking: &mut Ranking,
    best: &mut Scored,
    budget: u64,
    halt: &H,
) -> Option<Past>
    requires of { IsOf network.now parts.old }
    requires ranked { IsRanked network.now ranking.old }
    requires best { best.old.network ≡ network.now }
    requires spent { ranking.old.spent ≤ budget }
    requires budget { budget ≤ GREATEST }
    ensures ranked { IsRanked network.now ranking.new }
    ensures count { ranking.new.count ≡ ranking.old.count }
    ensures spent { ranking.new.spent ≤ budget }
    ensures past { IfSome result (λ _. H.limited halt.now ≡ true) }
{
    let Ok(mut marks) = no_marks(alloc, ranking) else {
        return None;
    };
    let mut dive = Dive::new(alloc);
    let mut child = None;
    for _ in 0..budget {
        if ranking.spent() >= budget {
            return None;
        }
        if let Some(past) = halt.past() {
            return Some(past);
        }
        let Ok(Some(current)) = go_on(alloc, network, parts, ranking, &marks, &mut dive, child)
        else {
            return None;
        };
        match turn(
            alloc, network, parts, ranking, best, &mut marks, current, halt,
        ) {
            Ok(next) => child = next,
            Err(AllocError) => return None,
        }
    }
    None
}

/// A mark for each node, none of which is set. An `Err` is want of memory.
fn no_marks(alloc: Global, ranking: &Ranking) -> Result<Vec<bool>, AllocError>
    ensures { IfOk result (λ marks. (P : Network) → AreMarked P ranking.now.nodes marks.items) }
{
    vec![in alloc; false; ranking.tree().len()]
}

/// What a search comes to.
fn ended(network: &Network, ranking: Ranking, budget: u64, past: Option<Past>) -> Best
    requires ranked { IsRanked network.now ranking }
    requires few { ranking.count ≤ 2 ^ 32 }
    requires spent { ranking.spent ≤ budget }
    ensures { IsBestOf network.now ranking.count budget (is_some past) result }
{
    let spent = ranking.spent();
    let finished = ranking.finish(network);
    Best {
        word: word_of(finished.is_open, spent == budget, past.is_some()),
        certificate: finished.certificate,
        spent,
    }
}

/// The word for an end.
fn word_of(is_open: bool, is_spent: bool, is_past: bool) -> ListWord
    ensures { result ≡ the_word is_open is_spent is_past }
{
    match (is_open, is_spent, is_past) {
        (false, _, _) => ListWord::Complete,
        (true, true, _) => ListWord::Budget,
        (true, false, true) => ListWord::Time,
        (true, false, false) => ListWord::Memory,
    }
}
