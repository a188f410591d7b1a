//! Tests of the plain program on small networks and trees.

ghost use Rattle.std.specs.Prelude.{◌≡◌, [], ◌∷◌, IfOk};
ghost use Rattle.cfn_model.specs.Network.{dims_at};

use cfn_model::{Decision, Event, Step};
use cfn_net::{Builder, Network, Scored};
use cfn_plain::{
    allowed, bound, cost, floor, good, is_live, is_live_tuple, keeps, least, residual, runs,
    strict, total, unary, valid,
};
use cfn_proof::{Block, Certificate, Tree};
use std::test::Fail;

/// One variable of 2 values, and one function over it: it costs 3, and 1 where the value is 1.
fn tiny(rt: &HostRuntime) -> Result<Network, Fail>
    ensures sizes { IfOk result (λ network. network.sizes ≡ 2 ∷ []) }
    ensures places { IfOk result (λ network. dims_at network 0 ≡ 2 ∷ []) }
{
    let mut builder = Builder::make(rt.alloc(), b"tiny", &[2], 10)?;
    builder.function(&[0], 3, &[(&[1], 1)])?;
    Ok(builder.finish()?)
}

const FIRST: Step = Step::Project {
    function: 0,
    place: 0,
    value: 0,
    amount: 3,
};

const SECOND: Step = Step::Project {
    function: 0,
    place: 0,
    value: 1,
    amount: 1,
};

const THIRD: Step = Step::Lift {
    variable: 0,
    amount: 1,
};

#[test]
fn shifts_move_costs(rt: HostRuntime) -> Result<(), Fail> {
    let network = tiny(&rt)?;
    let history = [Event::Did(THIRD), Event::Did(SECOND), Event::Did(FIRST)];
    assert!(rt; floor(&network, &history) == 1);
    assert!(rt; unary(&network, &history, 0, 0) == 2);
    assert!(rt; unary(&network, &history, 0, 1) == 0);
    assert!(rt; residual(&network, &history, 0, &[0]) == 0);
    assert!(rt; residual(&network, &history, 0, &[1]) == 0);
    assert!(rt; is_live(&history, 0, 1));
    assert!(rt; is_live_tuple(&network, &history, 0, &[1]));
    Ok(())
}

#[test]
fn costs_are_least(rt: HostRuntime) -> Result<(), Fail> {
    let network = tiny(&rt)?;
    assert!(rt; total(&network, &[0]) == 3);
    assert!(rt; cost(&network, &[1]) == 1);
    assert!(rt; least(rt.alloc(), &network)? == Some(1));
    Ok(())
}

#[test]
fn steps_run(rt: HostRuntime) -> Result<(), Fail> {
    let network = tiny(&rt)?;
    assert!(rt; allowed(rt.alloc(), &network, &[], FIRST, 10)?);
    assert!(rt; !allowed(rt.alloc(), &network, &[], THIRD, 10)?);
    assert!(rt; runs(rt.alloc(), &network, &[], &[FIRST, SECOND, THIRD], 10)?);
    assert!(rt; !runs(rt.alloc(), &network, &[], &[FIRST, FIRST], 10)?);
    Ok(())
}

#[test]
fn a_closed_tree_is_good(rt: HostRuntime) -> Result<(), Fail> {
    let network = tiny(&rt)?;
    let mut tree = Tree::new(rt.alloc())?;
    tree.close(Tree::ROOT, Block::of(rt.alloc(), &[FIRST, SECOND, THIRD])?);
    assert!(rt; valid(rt.alloc(), &network, &tree, 1)?);
    assert!(rt; !valid(rt.alloc(), &network, &tree, 2)?);
    assert!(rt; strict(rt.alloc(), &network, &tree)?);
    assert!(rt; bound(rt.alloc(), &network, &tree, 1)? == 1);
    let mut best = Scored::empty(rt.alloc(), &network)?;
    best.fill(&network, &[1]);
    let certificate = Certificate {
        variables: 1,
        functions: 1,
        upper: 10,
        best: Some(best),
        lower: 1,
        tree,
    };
    assert!(rt; good(rt.alloc(), &network, &certificate)?);
    Ok(())
}

#[test]
fn a_split_is_strict(rt: HostRuntime) -> Result<(), Fail> {
    let network = tiny(&rt)?;
    let mut tree = Tree::new(rt.alloc())?;
    let decision = Decision::Is {
        variable: 0,
        value: 1,
    };
    let _ = tree.split(Tree::ROOT, decision)?;
    assert!(rt; valid(rt.alloc(), &network, &tree, 10)?);
    assert!(rt; strict(rt.alloc(), &network, &tree)?);
    assert!(rt; bound(rt.alloc(), &network, &tree, 10)? == 0);
    Ok(())
}

#[test]
fn bounds_keep_what_is_at_most(rt: HostRuntime) -> Result<(), Fail> {
    let low = Decision::Most {
        variable: 0,
        value: 0,
    };
    assert!(rt; keeps(low, 0));
    assert!(rt; !keeps(low, 1));
    assert!(rt; !is_live(&[Event::Took(low)], 0, 1));
    assert!(rt; !is_live(&[Event::Refused(low)], 0, 0));
    Ok(())
}

#[test]
fn a_split_by_the_greatest_value_is_not_strict(rt: HostRuntime) -> Result<(), Fail> {
    let network = tiny(&rt)?;
    let mut tree = Tree::new(rt.alloc())?;
    let decision = Decision::Most {
        variable: 0,
        value: 1,
    };
    let _ = tree.split(Tree::ROOT, decision)?;
    assert!(rt; valid(rt.alloc(), &network, &tree, 10)?);
    assert!(rt; !strict(rt.alloc(), &network, &tree)?);
    Ok(())
}
