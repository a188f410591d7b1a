//! Tests of blocks, paths and trees.

use cfn_proof::{Block, Decision, End, Event, NodeId, Path, Side, Step, Tree};
use std::alloc::{AllocError, Global};
use std::test::*;

const LIFT: Step = Step::Lift {
    variable: 0,
    amount: 1,
};

const CUT: Step = Step::CutValue {
    variable: 1,
    value: 0,
};

const MOST: Decision = Decision::Most {
    variable: 0,
    value: 1,
};

const IS: Decision = Decision::Is {
    variable: 1,
    value: 0,
};

/// How many nodes a new tree has, the numbers of the second children of two splits, and how many nodes a copy has then.
fn split_twice(alloc: Global) -> Result<(usize, u32, u32, usize), AllocError> {
    let mut tree = Tree::new(alloc)?;
    let before = tree.len();
    let children = tree.split(Tree::ROOT, MOST)?;
    let block = Block::of(alloc, &[LIFT])?;
    let below = tree.split_behind(children.0, block, MOST)?;
    let copy = tree.copy(alloc)?;
    Ok((before, children.1.number, below.1.number, copy.len()))
}

#[test]
fn a_split_and_its_copy(rt: HostRuntime) -> Result<(), Fail> {
    assert!(rt; split_twice(rt.alloc())? == (1, 2, 4, 5));
    Ok(())
}

/// The first three steps of a block.
fn steps_of(block: &Block) -> [Option<Step>; 3] {
    let mut steps = block.cursor();
    [steps.next(), steps.next(), steps.next()]
}

/// The steps of the copy of a block that a step was pushed behind.
fn pushed(alloc: Global) -> Result<[Option<Step>; 3], AllocError> {
    let mut block = Block::of(alloc, &[])?;
    block.push(LIFT)?;
    Ok(steps_of(&block.copy(alloc)?))
}

/// How many events the copy of a path has that begins with a block of one step.
fn copied_len(alloc: Global) -> Result<Option<usize>, AllocError> {
    let block = Block::of(alloc, &[LIFT])?;
    let path = Path::at_root(alloc, &block)?;
    Ok(path.copy(alloc)?.len())
}

/// The steps of a block that an empty block and one of a step were put before.
fn put_behind(alloc: Global) -> Result<[Option<Step>; 3], AllocError> {
    let mut block = Block::of(alloc, &[CUT])?;
    block.put_behind(&Block::new(alloc))?;
    block.put_behind(&Block::of(alloc, &[LIFT])?)?;
    Ok(steps_of(&block))
}

#[test]
fn blocks_and_paths(rt: HostRuntime) -> Result<(), Fail> {
    assert!(rt; pushed(rt.alloc())? == [Some(LIFT), None, None]);
    assert!(rt; put_behind(rt.alloc())? == [Some(LIFT), Some(CUT), None]);
    assert!(rt; copied_len(rt.alloc())? == Some(1));
    Ok(())
}

/// A path of a decision that holds, and then fails with a step behind it.
fn path_of_two(alloc: Global) -> Result<Path, AllocError> {
    let mut path = Path::new(alloc);
    path.enter(Side::Holds(IS), &Block::new(alloc))?;
    path.enter(Side::Fails(IS), &Block::of(alloc, &[LIFT])?)?;
    Ok(path)
}

/// The first four events of a path.
fn events_of(path: &Path) -> [Option<Event>; 4] {
    let mut events = path.events();
    [events.next(), events.next(), events.next(), events.next()]
}

/// Whether that path has these events and no more, and its way up ends behind an empty block.
fn goes(alloc: Global, expected: [Event; 3]) -> Result<bool, AllocError> {
    let path = path_of_two(alloc)?;
    let none = Block::new(alloc);
    let [first, second, third] = expected;
    Ok(
        !path.is_empty()
            && path.len() == Some(3)
            && events_of(&path) == [Some(first), Some(second), Some(third), None]
            && path.way_up().above(Side::Fails(IS), &none).is_none(),
    )
}

#[test]
fn a_path_with_an_empty_block(rt: HostRuntime) -> Result<(), Fail> {
    let expected = [Event::Took(IS), Event::Refused(IS), Event::Did(LIFT)];
    assert!(rt; goes(rt.alloc(), expected)?);
    assert!(rt; Path::new(rt.alloc()).is_empty());
    Ok(())
}

/// A copy of a tree with steps at its root and at the root's second child, whose blocks were shared.
fn shared_copy(alloc: Global) -> Result<Tree, AllocError> {
    let mut tree = Tree::new(alloc)?;
    let children = tree.split_behind(Tree::ROOT, Block::of(alloc, &[LIFT, LIFT])?, IS)?;
    tree.close(children.1, Block::of(alloc, &[CUT])?);
    tree.share(alloc)?;
    tree.copy(alloc)
}

/// The first three steps of the node with that number, or none where there is no such node.
fn steps_at(tree: &Tree, number: u32) -> [Option<Step>; 3] {
    if number as usize >= tree.len() {
        return [None; 3];
    }
    steps_of(&tree.node(NodeId { number }).block)
}

/// Whether that copy has the steps of the tree, which is no more.
fn keeps_steps(alloc: Global) -> Result<bool, AllocError> {
    let copy = shared_copy(alloc)?;
    Ok(
        copy.len() == 3
            && steps_at(&copy, 0) == [Some(LIFT), Some(LIFT), None]
            && steps_at(&copy, 1) == [None; 3]
            && steps_at(&copy, 2) == [Some(CUT), None, None],
    )
}

/// A copy of the block of the node with that number, or an empty one where there is no such node.
fn block_at(alloc: Global, tree: &Tree, number: u32) -> Result<Block, AllocError> {
    if number as usize >= tree.len() {
        return Ok(Block::new(alloc));
    }
    tree.node(NodeId { number }).block.copy(alloc)
}

/// Whether a step that is pushed behind a copy of a shared block stands there.
fn takes_a_step(alloc: Global) -> Result<bool, AllocError> {
    let tree = shared_copy(alloc)?;
    let mut own = block_at(alloc, &tree, 2)?;
    own.push(LIFT)?;
    Ok(own.is_same(&Block::of(alloc, &[CUT, LIFT])?))
}

#[test]
fn blocks_of_a_tree_are_shared(rt: HostRuntime) -> Result<(), Fail> {
    assert!(rt; keeps_steps(rt.alloc())?);
    assert!(rt; takes_a_step(rt.alloc())?);
    Ok(())
}

/// A tree split by a step and a decision, whose second child is split once more; of these the first is closed.
fn piece(alloc: Global) -> Result<Tree, AllocError> {
    let mut piece = Tree::new(alloc)?;
    let sides = piece.split_behind(Tree::ROOT, Block::of(alloc, &[LIFT])?, IS)?;
    let leaves = piece.split(sides.1, MOST)?;
    piece.close(leaves.0, Block::of(alloc, &[LIFT])?);
    Ok(piece)
}

/// A split root whose second child that piece was put in the place of, if it was.
fn grafted(alloc: Global) -> Result<Option<Tree>, AllocError> {
    let mut tree = Tree::new(alloc)?;
    let children = tree.split(Tree::ROOT, MOST)?;
    match tree.graft(children.1, piece(alloc)?) {
        Ok(()) => Ok(Some(tree)),
        Err(_) => Ok(None),
    }
}

/// What is told of a node: the number of its parent, by what it is split and the numbers of its children, whether it is
/// closed, and its first step.
type Told = (
    Option<u32>,
    Option<(Decision, u32, u32)>,
    bool,
    Option<Step>,
);

/// What the node with that number tells, if there is one.
fn told(tree: &Tree, number: u32) -> Option<Told> {
    if number as usize >= tree.len() {
        return None;
    }
    let node = tree.node(NodeId { number });
    let parent = node.parent.map(|parent| parent.number);
    let split = match node.end {
        End::Split {
            decision,
            first,
            second,
        } => Some((decision, first.number, second.number)),
        _ => None,
    };
    let shut = matches!(node.end, End::Shut);
    Some((parent, split, shut, node.block.cursor().next()))
}

const GRAFTED: [Told; 7] = [
    (None, Some((MOST, 1, 2)), false, None),
    (Some(0), None, false, None),
    (Some(0), Some((IS, 3, 4)), false, Some(LIFT)),
    (Some(2), None, false, None),
    (Some(2), Some((MOST, 5, 6)), false, None),
    (Some(4), None, true, Some(LIFT)),
    (Some(4), None, false, None),
];

/// Whether a tree's nodes are these.
fn tells(tree: &Tree, expected: &[Told]) -> bool {
    let mut number = 0;
    for node in expected {
        if told(tree, number) != Some(*node) {
            return false;
        }
        number = number.saturating_add(1);
    }
    tree.len() == expected.len()
}

/// Whether that piece was put in its place, and the tree's nodes are these then.
fn grafts(alloc: Global, expected: &[Told]) -> Result<bool, AllocError> {
    match grafted(alloc)? {
        Some(tree) => Ok(tells(&tree, expected)),
        None => Ok(false),
    }
}

#[test]
fn a_piece_is_grafted(rt: HostRuntime) -> Result<(), Fail> {
    assert!(rt; grafts(rt.alloc(), &GRAFTED)?);
    Ok(())
}
