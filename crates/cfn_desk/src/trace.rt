//! The list of calls that contracts read. It has no bytes, and costs nothing at run time.

ghost use Rattle.std.specs.Prelude.{List};
ghost use Rattle.cfn_desk.specs.Outside.{Call};

use crate::interface::{Failed, LoadFault};
use std::marker::{Model, PhantomData};

/// What was called, and how it was answered.
#[derive(Clone, Copy, PartialEq, Eq)]
enum Kind {
    Loaded,
    Unreadable,
    NoMemory,
    Opened,
    NotOpened,
    Put,
    NotPut,
    Closed,
    NotClosed,
    Discarded,
    Said,
    NotSaid,
}

/// The calls that a desk was given, the newest first.
#[derive(Drop)]
pub(crate) struct Trace {
    marker: PhantomData<u8>,
    pub ghost calls: { List Call },
}

impl Model for Trace {
    ghost use Rattle.std.specs.Borrow.{ftrue};

    ghost also_owns = { λ _. ftrue };
}

impl Trace {
    ghost use Rattle.std.specs.Prelude.{◌≡◌, [], ◌∷◌};
    ghost use Rattle.cfn_desk.specs.Outside.{Load, Open, Close, Discard, answer_of, after_put, after_say};
    ghost use Rattle.cfn_desk.specs.Trace.{noted};

    /// No call yet.
    pub(crate) fn new() -> Trace
        ensures { result.calls ≡ [] }
    {
        Trace {
            marker: PhantomData,
        }
    }

    /// Adds a load, with its answer and the bytes that it left.
    pub(crate) fn load(&mut self, name: &str, answer: Result<(), LoadFault>, bytes: &[u8])
        ensures { self.new.calls ≡ Load name.now (answer_of answer bytes.now) ∷ self.old.calls }
    {
        let kind = match answer {
            Ok(()) => Kind::Loaded,
            Err(LoadFault::Failed) => Kind::Unreadable,
            Err(LoadFault::Memory) => Kind::NoMemory,
        };
        self.note(&kind, name.as_bytes(), bytes);
    }

    /// Adds the begin of a file.
    pub(crate) fn open(&mut self, name: &str, is_opened: bool)
        ensures { self.new.calls ≡ Open name.now is_opened ∷ self.old.calls }
    {
        let kind = if is_opened {
            Kind::Opened
        } else {
            Kind::NotOpened
        };
        self.note(&kind, name.as_bytes(), &[]);
    }

    /// Adds a piece that was put, or one that failed.
    pub(crate) fn put(&mut self, bytes: &[u8], answer: Result<(), Failed>)
        ensures { self.new.calls ≡ after_put bytes.now answer self.old.calls }
    {
        let kind = match answer {
            Ok(()) => Kind::Put,
            Err(Failed) => Kind::NotPut,
        };
        self.note(&kind, &[], bytes);
    }

    /// Adds the end of a file.
    pub(crate) fn close(&mut self, is_closed: bool)
        ensures { self.new.calls ≡ Close is_closed ∷ self.old.calls }
    {
        let kind = if is_closed {
            Kind::Closed
        } else {
            Kind::NotClosed
        };
        self.note(&kind, &[], &[]);
    }

    /// Adds that the file was dropped.
    pub(crate) fn discard(&mut self)
        ensures { self.new.calls ≡ Discard ∷ self.old.calls }
    {
        self.note(&Kind::Discarded, &[], &[]);
    }

    /// Adds a piece that was said, or one that failed.
    pub(crate) fn say(&mut self, bytes: &[u8], answer: Result<(), Failed>)
        ensures { self.new.calls ≡ after_say bytes.now answer self.old.calls }
    {
        let kind = match answer {
            Ok(()) => Kind::Said,
            Err(Failed) => Kind::NotSaid,
        };
        self.note(&kind, &[], bytes);
    }

    /// Adds a call of that kind, with its name and its bytes where it has them.
    fn note(&mut self, _kind: &Kind, _name: &[u8], _bytes: &[u8])
        ensures { self.new.calls ≡ noted _kind.now _name.now _bytes.now self.old.calls }
    {}
}
