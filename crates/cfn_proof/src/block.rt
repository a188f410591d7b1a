//! A block of steps, the first of them first, packed into bytes.
//!
//! The bytes are a block's own while it is made. Those of a whole tree are put into few buffers by `Tree::share`: then a
//! block is a stretch of one of them, its copy counts one reference more, and a buffer goes with the last of its blocks.

ghost use Rattle.std.specs.Prelude.{◌≡◌, ◌↔◌, ◌+◌, ◌<◌, ◌≤◌, [], ◌∷◌, ◌++◌, length, IsTrue, IfOk, OnOk, OnErr};
ghost use Rattle.std.specs.List.{AllByRecursion};
ghost use Rattle.std.specs.Iterator.{YieldsFirst, item_count};
ghost use Rattle.cfn_model.specs.Text.{IsSpelledStep};
ghost use Rattle.cfn_proof.specs.Packing.{IsPacked, unpacked};
ghost use Rattle.cfn_proof.specs.Bytes.{bytes_in};

use crate::packing::{first_step, push_step};
use crate::stretch::Stretch;
use cfn_model::Step;
use std::alloc::{AllocError, Global};
use std::marker::Model;
use std::sync::Arc;

/// A list of steps, in the order in which they are made. Each amount is 1 to 9,223,372,036,854,775,807. It takes 4 to 6
/// bytes a step in most networks, and 24 at most.
#[derive(Drop)]
pub struct Block {
    bytes: Bytes,
}

/// Where the bytes of a block are.
#[derive(Drop)]
enum Bytes {
    Own(Vec<u8>),
    Shared(Stretch),
}

impl Bytes {
    fn as_slice(&self) -> &[u8]
        ensures { result.now ≡ bytes_in self.now }
    {
        match self {
            Bytes::Own(bytes) => bytes,
            Bytes::Shared(stretch) => stretch.bytes(),
        }
    }

    fn allocator(&self) -> Global {
        match self {
            Bytes::Own(bytes) => *bytes.allocator(),
            Bytes::Shared(stretch) => stretch.allocator(),
        }
    }
}

impl Model for Block {
    ghost use Rattle.std.specs.Prelude.{List};
    ghost use Rattle.cfn_model.specs.declared.step.Step.{Step};
    ghost use Rattle.cfn_proof.specs.Packing.{IsPacked, unpacked};
    ghost use Rattle.cfn_proof.specs.Bytes.{bytes_in};

    ghost Value = { List Step };

    ghost view = { λ b. unpacked (bytes_in b.bytes) };

    ghost invariant = { λ b. IsPacked (bytes_in b.bytes) };
}

impl Block {
    /// No steps. It takes no memory.
    pub fn new(alloc: Global) -> Block
        ensures { result ≡ [] }
    {
        Block {
            bytes: Bytes::Own(Vec::new(alloc)),
        }
    }

    /// A block of these steps. An `Err` is want of memory.
    pub fn of(alloc: Global, steps: &[Step]) -> Result<Block, AllocError>
        requires { AllByRecursion IsSpelledStep steps.now }
        ensures { IfOk result (λ block. block ≡ steps.now) }
    {
        let mut block = Block::new(alloc);
        for step in steps {
            block.push(*step)?;
        }
        Ok(block)
    }

    /// The steps, the first of them first. It takes no memory.
    pub fn cursor(&self) -> Steps<'_>
        ensures steps { result ≡ self.now }
        ensures spelled { AllByRecursion IsSpelledStep self.now }
    {
        Steps {
            bytes: self.bytes.as_slice(),
        }
    }

    /// Whether there is no step.
    pub fn is_empty(&self) -> bool
        ensures { IsTrue result ↔ (self.now ≡ []) }
    {
        self.bytes.as_slice().is_empty()
    }

    /// Whether another block has the same steps. It takes no memory.
    pub fn is_same(&self, other: &Block) -> bool
        ensures { IsTrue result ↔ (self.now ≡ other.now) }
    {
        if self.bytes.as_slice() == other.bytes.as_slice() {
            return true;
        }
        let mut steps = other.cursor();
        for step in self.cursor() {
            let Some(others) = steps.next() else {
                return false;
            };
            if others != step {
                return false;
            }
        }
        steps.next().is_none()
    }

    /// Adds a step at the end. An `Err`, want of memory, leaves the block as it was.
    pub fn push(&mut self, step: Step) -> Result<(), AllocError>
        requires { IsSpelledStep step }
        ensures ok { OnOk result (self.new ≡ self.old ++ step ∷ []) }
        ensures err { OnErr result (self.new ≡ self.old) }
    {
        match &mut self.bytes {
            Bytes::Own(bytes) => push_whole(bytes, step),
            Bytes::Shared(stretch) => {
                let mut bytes = Vec::from_slice(stretch.allocator(), stretch.bytes())?;
                push_whole(&mut bytes, step)?;
                self.bytes = Bytes::Own(bytes);
                Ok(())
            }
        }
    }

    /// Puts the steps of another block before its own. It takes no memory where the other has no steps. An `Err`, want of
    /// memory, leaves the block as it was.
    pub fn put_behind(&mut self, first: &Block) -> Result<(), AllocError>
        ensures ok { OnOk result (self.new ≡ first.now ++ self.old) }
        ensures err { OnErr result (self.new ≡ self.old) }
    {
        let before = first.bytes.as_slice();
        if before.is_empty() {
            return Ok(());
        }
        let own = self.bytes.as_slice();
        let mut bytes = Vec::with_capacity(self.bytes.allocator(), before.len() + own.len())?;
        bytes.extend_from_slice(before)?;
        bytes.extend_from_slice(own)?;
        self.bytes = Bytes::Own(bytes);
        Ok(())
    }

    /// The same steps, in no more memory than they need. It takes no memory.
    pub(crate) fn fitted(self) -> Block
        ensures is { result ≡ self }
        ensures spelled { AllByRecursion IsSpelledStep self }
    {
        let Block { bytes } = self;
        match bytes {
            Bytes::Own(bytes) => {
                let mut fitted = bytes;
                fitted.shrink_to_fit();
                Block {
                    bytes: Bytes::Own(fitted),
                }
            }
            Bytes::Shared(stretch) => Block {
                bytes: Bytes::Shared(stretch),
            },
        }
    }

    /// The same steps, or want of memory. No step is copied where the bytes are shared.
    pub fn copy(&self, alloc: Global) -> Result<Block, AllocError>
        ensures { IfOk result (λ block. block ≡ self.now) }
    {
        let bytes = match &self.bytes {
            Bytes::Own(bytes) => Bytes::Own(Vec::from_slice(alloc, bytes)?),
            Bytes::Shared(stretch) => Bytes::Shared(stretch.another()?),
        };
        Ok(Block { bytes })
    }

    /// The bytes into which the steps are packed.
    pub(crate) fn bytes(&self) -> &[u8]
        ensures steps { unpacked result.now ≡ self.now }
        ensures packed { IsPacked result.now }
    {
        self.bytes.as_slice()
    }

    /// Takes the bytes that a buffer has from a place on in place of its own, where they are the same.
    pub(crate) fn share(&mut self, buffer: &Arc<Vec<u8>>, start: usize) -> Result<(), AllocError>
        ensures { self.new ≡ self.old }
    {
        if let Some(stretch) = Stretch::find(buffer, start, self.bytes.as_slice())? {
            self.bytes = Bytes::Shared(stretch);
        }
        Ok(())
    }
}

/// Adds the bytes of a step. An `Err`, want of memory, leaves the bytes as they were.
#[inline(always)]
fn push_whole(bytes: &mut Vec<u8>, step: Step) -> Result<(), AllocError>
    requires spelled { IsSpelledStep step }
    requires packed { IsPacked bytes.old.items }
    ensures packed { IsPacked bytes.new.items }
    ensures ok { OnOk result (unpacked bytes.new.items ≡ unpacked bytes.old.items ++ step ∷ []) }
    ensures err { OnErr result (bytes.new.items ≡ bytes.old.items) }
{
    let len = bytes.len();
    let pushed = push_step(bytes, step);
    if pushed.is_err() {
        bytes.truncate(len);
    }
    pushed
}
/// The steps of a block that are still to be read, the first of them first. Contracts see the list of them.
#[derive(Drop)]
pub struct Steps<'a> {
    bytes: &'a [u8],
}

impl<'a> Model for Steps<'a> {
    ghost use Rattle.std.specs.Prelude.{List};
    ghost use Rattle.cfn_model.specs.declared.step.Step.{Step};
    ghost use Rattle.cfn_proof.specs.Packing.{IsPacked, unpacked};

    ghost Value = { List Step };

    ghost view = { λ s. unpacked s.bytes.now };

    ghost invariant = { λ s. IsPacked s.bytes.now };
}

impl<'a> Iterator for Steps<'a> {
    type Item = Step;

    ghost next_gives = { YieldsFirst (λ left. left) };

    ghost remaining = { item_count (λ left. left) };

    #[inline(always)]
    fn next(&mut self) -> Option<Step> {
        if self.bytes.is_empty() {
            return None;
        }
        let (step, behind) = first_step(self.bytes);
        self.bytes = behind;
        Some(step)
    }
}
