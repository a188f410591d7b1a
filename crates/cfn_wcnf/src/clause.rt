//! The literals of a clause, as the polarities of its variables.

ghost use Rattle.std.specs.Prelude.{◌≡◌, ◌+◌, ◌<◌, ◌≤◌, [], length, None, IsFalse, unsigned_abs, OnOk, OnErr};
ghost use Rattle.cfn_model.specs.declared.limits.TheConstants.{MOST_CELLS, MOST_FUNCTIONS};
ghost use Rattle.cfn_net.specs.Building.{all_cells, with_function};
ghost use Rattle.cfn_wcnf.specs.Clauses.{binary, clause_cells, clause_function, is_tautology, merge, polarity_of, refuting, refuting_tuple, variables_in, with_literal, with_occurrence};
ghost use Rattle.cfn_wcnf.specs.Partial.{place_of, stands};
ghost use Rattle.cfn_wcnf.specs.Reading.{check_end, check_literal, check_number, is_zero};

use arrayvec::ArrayVec;
use cfn_model::{Kind, MOST_CELLS};
use cfn_net::Builder;
use std::alloc::AllocError;
use std::marker::Model;

/// The most different variables of a clause: the table of its function has 4,194,304 cells then.
pub(crate) const MOST_CLAUSE_VARIABLES: usize = 22;

/// In which polarities a variable stands in a clause.
#[derive(Clone, Copy)]
pub(crate) enum Polarity {
    /// Not negated.
    Positive,
    /// Negated.
    Negative,
    /// Both negated and not.
    Both,
}

impl Polarity {
    /// The polarity of a literal.
    fn of(number: i64) -> Polarity
        ensures { result ≡ polarity_of number }
    {
        if number < 0 {
            Polarity::Negative
        } else {
            Polarity::Positive
        }
    }

    /// Two polarities of one variable together.
    fn merge(self, other: Polarity) -> Polarity
        ensures { result ≡ merge self other }
    {
        match (self, other) {
            (Polarity::Positive, Polarity::Positive) => Polarity::Positive,
            (Polarity::Negative, Polarity::Negative) => Polarity::Negative,
            _ => Polarity::Both,
        }
    }

    /// The value at which all literals of a variable are false.
    fn refuting(self) -> u32
        ensures { result ≡ refuting self }
    {
        match self {
            Polarity::Negative => 1,
            _ => 0,
        }
    }
}

/// A variable of a clause, counted from 0, with its polarity.
#[derive(Clone, Copy)]
pub(crate) struct Occurrence {
    variable: u32,
    polarity: Polarity,
}

impl Default for Occurrence {
    fn default() -> Occurrence {
        Occurrence {
            variable: 0,
            polarity: Polarity::Positive,
        }
    }
}

/// Whether a number ends its clause.
pub(crate) fn is_end(number: i64) -> bool
    ensures { result ≡ is_zero number }
{
    number == 0
}

/// The absolute value of a number, which is at least 1 for a literal.
fn magnitude(number: i64) -> u64
    ensures value { result ≡ unsigned_abs number }
    ensures some { IsFalse (is_zero number) → 0 < result }
{
    number.unsigned_abs()
}

/// The literals of a clause so far, among so many variables: each variable once, in increasing order. So a long clause
/// on few variables takes no more room than a short one.
#[derive(Drop)]
pub(crate) struct Clause {
    variables: u32,
    occurrences: ArrayVec<Occurrence, MOST_CLAUSE_VARIABLES>,
}

impl Model for Clause {
    ghost use Rattle.cfn_wcnf.specs.Partial.{Partial, Keeps};

    ghost Value = { Partial };

    ghost view = { λ c. record { variables = c.variables; occurrences = c.occurrences.items } };

    ghost invariant = { λ c. Keeps c.variables c.occurrences.items };
}

impl Clause {
    /// A clause of no literals yet.
    pub(crate) fn new(variables: u32) -> Clause
        ensures { result ≡ record { variables = variables; occurrences = [] } }
    {
        Clause {
            variables,
            occurrences: ArrayVec::new(),
        }
    }

    /// The first check that the clause's next number fails, if it fails one, where the functions before it have so many
    /// cells. The number is a literal, or the 0 at the end.
    pub(crate) fn check(&self, number: i64, cells: u64) -> Option<Kind>
        requires { cells ≤ MOST_CELLS }
        ensures { result ≡ check_number self.now.variables cells self.now.occurrences number }
    {
        if is_end(number) {
            self.check_end(cells)
        } else {
            self.check_literal(number)
        }
    }

    /// The check of the 0 at the end.
    fn check_end(&self, cells: u64) -> Option<Kind>
        requires { cells ≤ MOST_CELLS }
        ensures { result ≡ check_end cells self.now.occurrences }
    {
        let all = cells + u64::from(self.cells());
        (all > u64::from(MOST_CELLS)).then_some(Kind::TooMany)
    }

    /// The first check that a literal fails, if it fails one.
    fn check_literal(&self, number: i64) -> Option<Kind>
        requires { IsFalse (is_zero number) }
        ensures { result ≡ check_literal self.now.variables self.now.occurrences number }
    {
        let magnitude = magnitude(number);
        if magnitude > u64::from(self.variables) {
            return Some(Kind::VariableOutOfRange);
        }
        let x = (magnitude - 1) as u32;
        if self.occurrences.is_full() && !self.contains(x) {
            return Some(Kind::TableTooWide);
        }
        None
    }

    /// Adds a literal that passed the checks.
    pub(crate) fn add(&mut self, number: i64)
        requires literal { IsFalse (is_zero number) }
        requires passed { check_literal self.old.variables self.old.occurrences number ≡ None }
        ensures { self.new ≡ record self.old { occurrences = with_literal self.old.occurrences number } }
    {
        let _ = &self.variables;
        let x = (magnitude(number) - 1) as u32;
        self.put(x, Polarity::of(number));
    }

    /// How many cells the function of the clause has, from 1 to 4,194,304.
    pub(crate) fn cells(&self) -> u32
        ensures { result ≡ clause_cells self.now.occurrences }
    {
        if self.is_tautology() {
            1
        } else {
            1 << self.occurrences.len()
        }
    }
    /// Adds the function of the clause to a builder. An error leaves the builder unchanged.
    pub(crate) fn add_to(&self, builder: &mut Builder, weight: u64) -> Result<(), AllocError>
        requires sizes { builder.old.sizes ≡ binary self.now.variables }
        requires functions { length builder.old.functions < MOST_FUNCTIONS }
        requires cells { all_cells builder.old + clause_cells self.now.occurrences ≤ MOST_CELLS }
        ensures ok { OnOk result (builder.new ≡ with_function builder.old
            (clause_function self.now.variables builder.old.upper weight self.now.occurrences)) }
        ensures err { OnErr result (builder.new ≡ builder.old) }
    {
        if self.is_tautology() {
            return builder.begin(&[], 0);
        }
        if self.occurrences.is_empty() {
            return builder.begin(&[], weight);
        }
        let scope = self.scope();
        let tuple = self.refuting_tuple();
        builder.function(scope.as_slice(), 0, &[(tuple.as_slice(), weight)])
    }

    /// The variables, in increasing order.
    fn scope(&self) -> ArrayVec<u32, MOST_CLAUSE_VARIABLES>
        ensures { result.items ≡ variables_in self.now.occurrences }
    {
        let mut scope = ArrayVec::new();
        for occurrence in self.occurrences.as_slice() {
            scope.push(occurrence.variable);
        }
        scope
    }

    /// The tuple of these variables that falsifies the clause, if one does.
    fn refuting_tuple(&self) -> ArrayVec<u32, MOST_CLAUSE_VARIABLES>
        ensures { result.items ≡ refuting_tuple self.now.occurrences }
    {
        let mut tuple = ArrayVec::new();
        for occurrence in self.occurrences.as_slice() {
            tuple.push(occurrence.polarity.refuting());
        }
        tuple
    }

    /// Whether every assignment satisfies the clause.
    fn is_tautology(&self) -> bool
        ensures { result ≡ is_tautology self.now.occurrences }
    {
        self.occurrences
            .iter()
            .any(|occurrence| occurrence.polarity == Polarity::Both)
    }

    /// Where a variable stands, or would stand.
    fn place(&self, x: u32) -> usize
        ensures { result ≡ place_of x self.now.occurrences }
    {
        self.occurrences
            .iter()
            .take_while(|occurrence| occurrence.variable < x)
            .count()
    }

    /// Whether a variable stands at its place.
    fn contains(&self, x: u32) -> bool
        ensures { result ≡ stands x self.now.occurrences }
    {
        let place = self.place(x);
        place < self.occurrences.len() && self.occurrences[place].variable == x
    }

    /// Adds an occurrence of a variable.
    fn put(&mut self, x: u32, polarity: Polarity)
        requires range { x < self.old.variables }
        requires few { length (with_occurrence x polarity self.old.occurrences) ≤ MOST_CLAUSE_VARIABLES }
        ensures { self.new ≡ record self.old { occurrences = with_occurrence x polarity self.old.occurrences } }
    {
        let place = self.place(x);
        if self.contains(x) {
            let polarity = self.occurrences[place].polarity.merge(polarity);
            self.occurrences[place] = Occurrence {
                variable: x,
                polarity,
            };
        } else {
            self.occurrences.insert(
                place,
                Occurrence {
                    variable: x,
                    polarity,
                },
            );
        }
    }
}
