//! Tests of lists that are written into a file and said on the screen.

ghost use Rattle.std.specs.Prelude.{◌<◌, ◌≤◌};
ghost use Rattle.cfn_model.specs.declared.limits.TheConstants.{GREATEST};

use crate::given::{split_tree, writing_desk};
use cfn_best::ListFault;
use cfn_certwrite::{
    write_best, write_list_open, write_list_refused, write_list_report, write_list_verified,
};
use cfn_desk::{Desk, Failed, MemoryDesk};
use cfn_fault::FaultKind;
use cfn_proof::{Block, Decision, Step, Tree};
use cfn_ranking::{BestCertificate, ListWord, Listed};
use std::alloc::{AllocError, Global};
use std::test::Fail;

/// A listed assignment of one variable.
fn listed(alloc: Global, cost: u64, value: u32) -> Result<Listed, AllocError>
    requires { cost ≤ GREATEST }
{
    let values = vec![in alloc; value]?;
    Ok(Listed { cost, values })
}

/// The list of both assignments.
fn both(alloc: Global) -> Result<BestCertificate, AllocError> {
    let list = vec![in alloc; listed(alloc, 1, 1)?, listed(alloc, 3, 0)?]?;
    Ok(BestCertificate {
        variables: 1,
        functions: 1,
        upper: 10,
        count: 2,
        lower: 3,
        list,
        tree: split_tree(alloc)?,
        numbers: vec![in alloc; None, Some(1), Some(0)]?,
    })
}

const BOTH: &[u8] =
    b"wcspbest 1\nnetwork 1 1 10\ncount 2\nlower 3\nbest 2\nvalues 1 1\nvalues 3 0\n\
    tree\nsplit 0 0\nlisted 1\nlisted 0\nend\n";

/// The words of that text.
const BOTH_WORDS: u64 = 27;

/// What becomes of a list that is written where these calls fail, and whether the file has these bytes then.
fn write_into_file(
    rt: &HostRuntime,
    certificate: &BestCertificate,
    failing: &[u64],
    bytes: &[u8],
) -> Result<(Result<(), Failed>, bool), Fail> {
    let mut desk = writing_desk(rt, failing)?;
    let answer = write_best(certificate, &mut desk);
    Ok((answer, desk.out_bytes() == bytes))
}

#[test]
fn writes_both_assignments(rt: HostRuntime) -> Result<(), Fail> {
    let certificate = both(rt.alloc())?;
    assert!(rt; write_into_file(&rt, &certificate, &[], BOTH)? == (Ok(()), true));
    Ok(())
}

/// Whether a list is not written where this call fails, and the file has no bytes then, and is dropped.
fn is_dropped(rt: &HostRuntime, certificate: &BestCertificate, failing: u64) -> Result<bool, Fail> {
    let mut desk = writing_desk(rt, &[failing])?;
    match write_best(certificate, &mut desk) {
        Ok(()) => Ok(false),
        Err(Failed) => {
            let left = desk.out_bytes().len();
            // the file can only be dropped
            desk.discard_out();
            Ok(left == 0)
        }
    }
}

#[test]
fn stops_at_each_put(rt: HostRuntime) -> Result<(), Fail> {
    let certificate = both(rt.alloc())?;
    for words in 0..BOTH_WORDS {
        assert!(rt; is_dropped(&rt, &certificate, words + 2)?);
    }
    let failing = [BOTH_WORDS + 2];
    assert!(rt; write_into_file(&rt, &certificate, &failing, BOTH)? == (Ok(()), true));
    Ok(())
}

/// The list of the cheapest assignment alone, where the leaf of the other is closed, or open.
fn cheapest(alloc: Global, lower: u64, tree: Tree) -> Result<BestCertificate, AllocError>
    requires { lower ≤ GREATEST }
{
    Ok(BestCertificate {
        variables: 1,
        functions: 1,
        upper: 10,
        count: 1,
        lower,
        list: vec![in alloc; listed(alloc, 1, 1)?]?,
        tree,
        numbers: vec![in alloc; None, None, Some(0)]?,
    })
}

const OPEN: &[u8] =
    b"wcspbest 1\nnetwork 1 1 10\ncount 1\nlower 0\nbest 1\nvalues 1 1\ntree\nsplit 0 0\n\
    open\nlisted 0\nend\n";

const CLOSED: &[u8] =
    b"wcspbest 1\nnetwork 1 1 10\ncount 1\nlower 1\nbest 1\nvalues 1 1\ntree\nsplit 0 0\n\
    p 0 0 0 3\nu 0 3\nclosed\nlisted 0\nend\n";

/// The split, its first leaf closed.
fn closed_tree(alloc: Global) -> Result<Tree, AllocError> {
    let steps = [
        Step::Project {
            function: 0,
            place: 0,
            value: 0,
            amount: 3,
        },
        Step::Lift {
            variable: 0,
            amount: 3,
        },
    ];
    let decision = Decision::Is {
        variable: 0,
        value: 0,
    };
    let block = Block::of(alloc, &steps)?;
    let mut tree = Tree::new(alloc)?;
    let (first, _) = tree.split(Tree::ROOT, decision)?;
    tree.close(first, block);
    Ok(tree)
}

#[test]
fn writes_open_and_closed_leaves(rt: HostRuntime) -> Result<(), Fail> {
    let open = cheapest(rt.alloc(), 0, split_tree(rt.alloc())?)?;
    assert!(rt; write_into_file(&rt, &open, &[], OPEN)? == (Ok(()), true));
    let closed = cheapest(rt.alloc(), 1, closed_tree(rt.alloc())?)?;
    assert!(rt; write_into_file(&rt, &closed, &[], CLOSED)? == (Ok(()), true));
    Ok(())
}

/// Whether the report of the list of both assignments is said as these bytes.
fn says_both(rt: &HostRuntime, word: ListWord, bytes: &[u8]) -> Result<bool, AllocError> {
    let certificate = both(rt.alloc())?;
    let mut desk = MemoryDesk::make(rt.alloc(), &[], 0, 4096, &[])?;
    let answer = write_list_report(&certificate, word, &mut desk);
    Ok(answer == Ok(()) && desk.said_bytes() == bytes)
}

#[test]
fn says_a_report(rt: HostRuntime) -> Result<(), Fail> {
    let complete = b"count 2\ncost 1 values 1\ncost 3 values 0\nlower 3\nresult complete\n";
    assert!(rt; says_both(&rt, ListWord::Complete, complete)?);
    let time = b"count 2\ncost 1 values 1\ncost 3 values 0\nlower 3\nresult time\n";
    assert!(rt; says_both(&rt, ListWord::Time, time)?);
    Ok(())
}

/// Says each message; whether all were said.
fn say_each(desk: &mut MemoryDesk) -> bool {
    write_list_verified(3, 2, desk).is_ok()
        && write_list_open(1, 2, desk).is_ok()
        && write_list_refused(ListFault::Listed, 10, desk).is_ok()
        && write_list_refused(ListFault::Certificate(FaultKind::Best), 7, desk).is_ok()
}

#[test]
fn says_messages(rt: HostRuntime) -> Result<(), Fail> {
    let text: &[u8] =
        b"verified lower 3 count 2\nverified lower 1 count 2\nopen\nrefused listed at 10\nrefused best at 7\n";
    let mut desk = MemoryDesk::make(rt.alloc(), &[], 0, 4096, &[])?;
    assert!(rt; say_each(&mut desk));
    assert!(rt; desk.said_bytes() == text);
    Ok(())
}
