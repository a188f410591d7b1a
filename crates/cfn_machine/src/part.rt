//! A part of a search: the open leaves that it has of a tree.

ghost use Rattle.std.specs.Prelude.{◌≡◌, Some};
ghost use Rattle.cfn_machine.specs.Parts.{IsPart, has_leaf};

/// One of several parts of a search. The open leaves of a tree are dealt to the parts by turns, in the order of the tree's text.
#[derive(Clone, Copy)]
pub struct Part {
    /// Its number, counted from 0.
    pub number: u32,
    /// How many parts there are.
    pub parts: u32,
}

impl Part {
    /// Whether it has the leaf with this number, counted from 0.
    pub fn has(self, leaf: u32) -> bool
        requires { IsPart self }
        ensures { result ≡ has_leaf (Some self) leaf }
    {
        leaf % self.parts == self.number
    }
}
