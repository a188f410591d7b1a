//! Small networks that are drawn by a fixed rule, and the least cost that the words of a file say.
//!
//! The words are numbers in the order of a wcsp file (toulbar2 user manual, wcsp format), without the name. The cost
//! of an assignment is read off them alone, with no network and no table between.

use std::alloc::{AllocError, Global};

/// The greatest cost of a file.
pub const MOST: u64 = 9223372036854775807;

/// At most so many assignments has a network that `draw` draws.
const ASSIGNMENTS: u64 = 64;

/// What networks are drawn: at most how many variables, values of each, assignments, functions, variables and listings of
/// each, and whether a cost may be a great one whatever the upper bound.
#[derive(Clone, Copy)]
pub struct Shape {
    pub variables: u64,
    pub values: u64,
    pub assignments: u64,
    pub functions: u64,
    pub arity: u64,
    pub listings: u64,
    pub dear: bool,
}

/// What `draw` draws.
const SMALL: Shape = Shape {
    variables: 4,
    values: 4,
    assignments: ASSIGNMENTS,
    functions: 5,
    arity: 3,
    listings: 6,
    dear: false,
};

/// The greatest of the great costs: 2^61.
pub const DEAR: u64 = 2305843009213693952;

/// Numbers that follow each other by a linear congruential step.
#[derive(Drop)]
pub struct Dice {
    pub state: u64,
}

impl Dice {
    /// A number below `bound`, or 0 where that is 0.
    pub fn below(&mut self, bound: u64) -> u64 {
        self.state = self
            .state
            .wrapping_mul(6364136223846793005)
            .wrapping_add(1442695040888963407);
        (self.state >> 33).checked_rem(bound).unwrap_or(0)
    }

    /// A number from 1 to `most`, or 1 where that is 0.
    pub fn up_to(&mut self, most: u64) -> u64 {
        self.below(most).saturating_add(1)
    }

    /// A cost of these networks.
    fn cost(&mut self, shape: Shape, upper: u64) -> u64 {
        if !shape.dear {
            return self.cost_by(upper);
        }
        match self.below(8) {
            0 => DEAR,
            1 => self.below(DEAR >> 30).saturating_mul(1 << 30),
            2 => self.below(upper.saturating_add(1)),
            _ => self.cost_by(upper),
        }
    }

    /// A cost, mostly a small one, and at times one by the upper bound or above it.
    fn cost_by(&mut self, upper: u64) -> u64 {
        match self.below(24) {
            0 => upper,
            1 => upper.saturating_add(1).min(MOST),
            2 => upper.saturating_sub(1),
            3 => upper / 2,
            _ => self.below(6),
        }
    }
}

/// The words of a network with this upper bound: 1 to 4 variables with 1 to 4 values, and 1 to 5 functions of up to 3.
pub fn draw(alloc: Global, dice: &mut Dice, upper: u64) -> Result<Vec<u64>, AllocError> {
    draw_shaped(alloc, dice, SMALL, upper)
}

/// The words of a network of a shape with this upper bound.
pub fn draw_shaped(
    alloc: Global,
    dice: &mut Dice,
    shape: Shape,
    upper: u64,
) -> Result<Vec<u64>, AllocError> {
    let variables = dice.up_to(shape.variables);
    let functions = dice.up_to(shape.functions);
    let mut room = shape.assignments;
    let mut sizes = Vec::new(alloc);
    for _ in 0..variables {
        let size = dice.up_to(room.min(shape.values));
        room = room.checked_div(size).unwrap_or(0);
        sizes.push(size)?;
    }
    let mut words = Vec::from_slice(alloc, &[variables, shape.values, functions, upper])?;
    words.extend_from_slice(&sizes)?;
    for _ in 0..functions {
        draw_function(alloc, dice, shape, upper, &sizes, &mut words)?;
    }
    Ok(words)
}

/// Draws the words of a function. Several listings may be of one tuple.
fn draw_function(
    alloc: Global,
    dice: &mut Dice,
    shape: Shape,
    upper: u64,
    sizes: &[u64],
    words: &mut Vec<u64>,
) -> Result<(), AllocError> {
    let scope = draw_scope(alloc, dice, shape.arity, sizes.len() as u64)?;
    words.push(scope.len() as u64)?;
    words.extend_from_slice(&scope)?;
    words.push(dice.cost(shape, upper))?;
    let listings = dice.below(shape.listings.saturating_add(1));
    words.push(listings)?;
    for _ in 0..listings {
        for variable in &scope {
            words.push(dice.below(at(sizes, *variable)))?;
        }
        words.push(dice.cost(shape, upper))?;
    }
    Ok(())
}

/// Draws so many different variables at most, in an order that rises or falls from any one of them on, and round the end.
fn draw_scope(
    alloc: Global,
    dice: &mut Dice,
    arity: u64,
    variables: u64,
) -> Result<Vec<u64>, AllocError> {
    let most = dice.below(8).min(arity);
    let rises = dice.below(2) == 0;
    let mut variable = dice.below(variables);
    let mut scope = Vec::new(alloc);
    for _ in 0..variables {
        if (scope.len() as u64) < most && dice.below(4) > 0 {
            scope.push(variable)?;
        }
        let next = if rises {
            variable.checked_add(1)
        } else {
            variable.checked_sub(1)
        };
        variable = match next {
            Some(next) if next < variables => next,
            _ if rises => 0,
            _ => variables.saturating_sub(1),
        };
    }
    Ok(scope)
}

/// A file of these words.
pub fn file_of(alloc: Global, words: &[u64]) -> Result<String, AllocError> {
    let mut file = String::from_str(alloc, "drawn")?;
    for word in words {
        write!(file, " {word}")?;
    }
    Ok(file)
}

/// The least cost below the upper bound, or `None` where every assignment costs the upper bound or more.
pub fn least_of(alloc: Global, words: &[u64]) -> Result<Option<u64>, AllocError> {
    let upper = at(words, 3);
    let mut least = None;
    for number in 0..ASSIGNMENTS {
        let values = values_of(alloc, words, number)?;
        let cost = cost_of(words, &values);
        if cost < least.unwrap_or(upper) {
            least = Some(cost);
        }
    }
    Ok(least)
}

/// The assignment with this number, of which the first value runs fastest. Behind the last one they begin anew.
fn values_of(alloc: Global, words: &[u64], number: u64) -> Result<Vec<u64>, AllocError> {
    let mut rest = number;
    let mut values = Vec::new(alloc);
    for size in words.iter().copied().skip(4).take(at(words, 0) as usize) {
        values.push(rest.checked_rem(size).unwrap_or(0))?;
        rest = rest.checked_div(size).unwrap_or(0);
    }
    Ok(values)
}

/// The sum of what all functions cost at an assignment.
fn cost_of(words: &[u64], values: &[u64]) -> u64 {
    let mut rest = Words { rest: words };
    let _ = rest.take(4usize.saturating_add(values.len()));
    let mut sum: u64 = 0;
    for _ in 0..at(words, 2) {
        sum = sum.saturating_add(rest.function(values));
    }
    sum
}

/// The words that are still to be read.
#[derive(Clone, Copy)]
struct Words<'a> {
    rest: &'a [u64],
}

impl<'a> Words<'a> {
    /// The next words, so many of them.
    fn take(&mut self, count: usize) -> &'a [u64] {
        let (front, rest) = self.rest.split_at(count.min(self.rest.len()));
        self.rest = rest;
        front
    }

    /// The next word.
    fn next(&mut self) -> u64 {
        at(self.take(1), 0)
    }

    /// What the next function costs at an assignment: its default, or the cost of the last listing that has the
    /// assignment's values.
    fn function(&mut self, values: &[u64]) -> u64 {
        let arity = self.next() as usize;
        let scope = self.take(arity);
        let mut cost = self.next();
        for _ in 0..self.next() {
            let tuple = self.take(arity);
            let listed = self.next();
            if is_at(scope, tuple, values) {
                cost = listed;
            }
        }
        cost
    }
}

/// Whether the variables of a scope have the values of a tuple.
fn is_at(scope: &[u64], tuple: &[u64], values: &[u64]) -> bool {
    scope
        .iter()
        .zip(tuple)
        .all(|(variable, value)| at(values, *variable) == *value)
}

/// The number at a place, or 0 where there is none.
fn at(numbers: &[u64], place: u64) -> u64 {
    numbers.get(place as usize).copied().unwrap_or(0)
}
