//! A plain judge of a certificate's lines, which stands on the plain definitions alone: it shares no code with the
//! checker, knows a place in the tree by its whole history, and asks the plain program of each step.

use cfn_model::{Decision, Event, Step, Version};
use cfn_net::{Fit, Network};
use cfn_testing::drawing::MOST;
use std::alloc::{AllocError, Global};

/// What a plain judge answers: how a line fails and which one, or that the certificate is good.
#[derive(Clone, Copy, PartialEq, Eq)]
pub(crate) enum Verdict {
    Refused { kind: Kind, line: usize },
    Verified { lower: u64, best: Option<u64> },
}

impl Verdict {
    /// The status of a run of `check` that answers so.
    pub(crate) fn status(self) -> u8 {
        match self {
            Verdict::Verified { .. } => 0,
            Verdict::Refused { .. } => 7,
        }
    }

    /// What a run of `check` that answers so says.
    pub(crate) fn said(self, alloc: Global) -> Result<String, AllocError> {
        let mut said = String::new(alloc);
        match self {
            Verdict::Refused { kind, line } => {
                let word = kind.word();
                write!(said, "refused {word} at {line}\n")?;
            }
            Verdict::Verified { lower, best: None } => {
                write!(said, "verified lower {lower} best none\n")?;
            }
            Verdict::Verified {
                lower,
                best: Some(best),
            } => write!(said, "verified lower {lower} best {best}\n")?,
        }
        Ok(said)
    }
}

/// How a line fails.
#[derive(Clone, Copy, PartialEq, Eq)]
pub(crate) enum Kind {
    Text,
    Network,
    Best,
    Range,
    Project,
    Extend,
    Lift,
    Cut,
    Close,
    Lower,
}

impl Kind {
    /// Every kind.
    pub(crate) const ALL: [Kind; 10] = [
        Kind::Text,
        Kind::Network,
        Kind::Best,
        Kind::Range,
        Kind::Project,
        Kind::Extend,
        Kind::Lift,
        Kind::Cut,
        Kind::Close,
        Kind::Lower,
    ];

    /// Its word.
    pub(crate) fn word(self) -> &'static str {
        match self {
            Kind::Text => "text",
            Kind::Network => "network",
            Kind::Best => "best",
            Kind::Range => "range",
            Kind::Project => "project",
            Kind::Extend => "extend",
            Kind::Lift => "lift",
            Kind::Cut => "cut",
            Kind::Close => "close",
            Kind::Lower => "lower",
        }
    }
}

/// The line that comes next.
#[derive(Clone, Copy, PartialEq, Eq)]
enum Next {
    Version,
    Network,
    Lower,
    Best,
    Values,
    Tree,
    Node,
    End,
    Nothing,
}

/// What the lines so far leave: the line that comes next, the version and the numbers of the front, the least floor of an
/// open leaf, and the histories of the nodes that are due, the next one last.
#[derive(Drop)]
struct Judge {
    next: Next,
    version: Version,
    lower: u64,
    best: Option<u64>,
    least: u128,
    due: Vec<Vec<Event>>,
}

/// Judges the lines of a certificate, in their order. `lower` is judged last.
pub(crate) fn verdict_of(
    alloc: Global,
    network: &Network,
    lines: &[&str],
) -> Result<Verdict, AllocError> {
    let mut judge = Judge::make(alloc)?;
    for (before, line) in lines.iter().enumerate() {
        if let Some(kind) = judge.line(alloc, network, line)? {
            let line = before.saturating_add(1);
            return Ok(Verdict::Refused { kind, line });
        }
    }
    Ok(judge.verdict(network, lines.len()))
}

impl Judge {
    /// Before the first line. The root is due.
    fn make(alloc: Global) -> Result<Judge, AllocError> {
        let mut due = Vec::new(alloc);
        due.push(Vec::new(alloc))?;
        Ok(Judge {
            next: Next::Version,
            version: Version::First,
            lower: 0,
            best: None,
            least: MOST as u128,
            due,
        })
    }

    /// The verdict behind the last line.
    fn verdict(&self, network: &Network, lines: usize) -> Verdict {
        if self.next != Next::Nothing {
            let line = lines.saturating_add(1);
            return Verdict::Refused {
                kind: Kind::Text,
                line,
            };
        }
        let most = self.least.min(self.threshold(network) as u128);
        if self.lower as u128 > most {
            return Verdict::Refused {
                kind: Kind::Lower,
                line: 3,
            };
        }
        Verdict::Verified {
            lower: self.lower,
            best: self.best,
        }
    }

    /// The best cost, or the upper bound where there is no best.
    fn threshold(&self, network: &Network) -> u64 {
        self.best.unwrap_or(network.ub())
    }

    /// Takes the next line. The answer is how it fails, if it does.
    fn line(
        &mut self,
        alloc: Global,
        network: &Network,
        line: &str,
    ) -> Result<Option<Kind>, AllocError> {
        let words = words_of(alloc, line)?;
        let words = words.as_slice();
        match self.next {
            Next::Node => self.node(alloc, network, words),
            Next::Values => self.values(alloc, network, words),
            _ => Ok(self.front(network, words)),
        }
    }

    /// Takes a line that is neither of the tree nor of the best values.
    fn front(&mut self, network: &Network, words: &[&str]) -> Option<Kind> {
        match (self.next, words) {
            (Next::Version, ["wcspcert", "1"]) => self.follow(Next::Network),
            (Next::Version, ["wcspcert", "2"]) => {
                self.version = Version::Second;
                self.follow(Next::Network)
            }
            (Next::Network, ["network", n, e, ub]) => self.network(network, n, e, ub),
            (Next::Lower, ["lower", lower]) => match number(lower) {
                Some(lower) => {
                    self.lower = lower;
                    self.follow(Next::Best)
                }
                None => Some(Kind::Text),
            },
            (Next::Best, ["best", "none"]) => self.follow(Next::Tree),
            (Next::Best, ["best", best]) => self.best(network, best),
            (Next::Tree, ["tree"]) => self.follow(Next::Node),
            (Next::End, ["end"]) => self.follow(Next::Nothing),
            _ => Some(Kind::Text),
        }
    }

    /// The line is as it should be, and this one comes next.
    fn follow(&mut self, next: Next) -> Option<Kind> {
        self.next = next;
        None
    }

    /// Takes the network's numbers.
    fn network(&mut self, network: &Network, n: &str, e: &str, ub: &str) -> Option<Kind> {
        let (Some(n), Some(e), Some(ub)) = (number(n), number(e), number(ub)) else {
            return Some(Kind::Text);
        };
        let same = n == network.variables() as u64
            && e == network.functions() as u64
            && ub == network.ub();
        if same {
            self.follow(Next::Lower)
        } else {
            Some(Kind::Network)
        }
    }

    /// Takes the cost of the best assignment.
    fn best(&mut self, network: &Network, best: &str) -> Option<Kind> {
        let Some(best) = number(best) else {
            return Some(Kind::Text);
        };
        if best >= network.ub() {
            return Some(Kind::Best);
        }
        self.best = Some(best);
        self.follow(Next::Values)
    }

    /// Takes the values of the best assignment.
    fn values(
        &mut self,
        alloc: Global,
        network: &Network,
        words: &[&str],
    ) -> Result<Option<Kind>, AllocError> {
        let ["values", first, rest @ ..] = words else {
            return Ok(Some(Kind::Text));
        };
        let mut values = Vec::new(alloc);
        for word in [*first].iter().chain(rest) {
            let Some(value) = number(word) else {
                return Ok(Some(Kind::Text));
            };
            values.push(u32::try_from(value).unwrap_or(u32::MAX))?;
        }
        Ok(if self.is_best(network, values.as_slice()) {
            self.follow(Next::Tree)
        } else {
            Some(Kind::Best)
        })
    }

    /// Whether these are values of all variables, with the best cost.
    fn is_best(&self, network: &Network, values: &[u32]) -> bool {
        network.fits(values) == Fit::Fits && Some(cfn_plain::cost(network, values)) == self.best
    }

    /// Takes a line of the tree.
    fn node(
        &mut self,
        alloc: Global,
        network: &Network,
        words: &[&str],
    ) -> Result<Option<Kind>, AllocError> {
        let Some(mut history) = self.due.pop() else {
            return Ok(Some(Kind::Text));
        };
        match words {
            ["open"] => {
                let floor = cfn_plain::floor(network, history.as_slice());
                self.least = self.least.min(floor);
            }
            ["closed"] => {
                if !self.can_close(network, history.as_slice()) {
                    return Ok(Some(Kind::Close));
                }
            }
            ["split" | "part", ..] => {
                let decision = match decided(network, self.version, words) {
                    Ok(decision) => decision,
                    Err(kind) => return Ok(Some(kind)),
                };
                self.due
                    .push(with(alloc, &history, Event::Refused(decision))?)?;
                self.due
                    .push(with(alloc, &history, Event::Took(decision))?)?;
            }
            _ => {
                let fault = self.step(alloc, network, words, &mut history)?;
                self.due.push(history)?;
                return Ok(fault);
            }
        }
        if self.due.is_empty() {
            self.next = Next::End;
        }
        Ok(None)
    }

    /// Takes a step behind a history, the newest event first. An allowed one is its newest event then.
    fn step(
        &self,
        alloc: Global,
        network: &Network,
        words: &[&str],
        history: &mut Vec<Event>,
    ) -> Result<Option<Kind>, AllocError> {
        let step = match spelled(network, words) {
            Ok(step) => step,
            Err(kind) => return Ok(Some(kind)),
        };
        let k = self.threshold(network);
        if !cfn_plain::allowed(alloc, network, history.as_slice(), step, k)? {
            return Ok(Some(refusal_of(step)));
        }
        history.insert(0, Event::Did(step))?;
        Ok(None)
    }

    /// Whether the floor reaches the threshold behind a history, or a variable has no live value.
    fn can_close(&self, network: &Network, history: &[Event]) -> bool {
        let k = self.threshold(network) as u128;
        k <= cfn_plain::floor(network, history)
            || (0..network.variables()).any(|x| is_wiped(network, history, x))
    }
}

/// A history behind which an event happened, the newest event first.
fn with(alloc: Global, history: &[Event], event: Event) -> Result<Vec<Event>, AllocError> {
    let mut longer = Vec::from_slice(alloc, &[event])?;
    longer.extend_from_slice(history)?;
    Ok(longer)
}

/// Whether no value of a variable is live behind a history.
fn is_wiped(network: &Network, history: &[Event], x: u32) -> bool {
    !(0..size(network, x)).any(|value| cfn_plain::is_live(history, x, value))
}

/// How a step fails that is in range and not allowed.
fn refusal_of(step: Step) -> Kind {
    match step {
        Step::Project { .. } => Kind::Project,
        Step::Extend { .. } => Kind::Extend,
        Step::Lift { .. } => Kind::Lift,
        Step::CutValue { .. } | Step::CutTuple { .. } => Kind::Cut,
    }
}

/// The decision that the words of a split spell in a version, with numbers in range, or how they fail.
fn decided(network: &Network, version: Version, words: &[&str]) -> Result<Decision, Kind> {
    match (version, words) {
        (_, ["split", x, value]) => {
            let (variable, value) = value_of(network, x, value)?;
            Ok(Decision::Is { variable, value })
        }
        (Version::Second, ["part", x, value]) => {
            let (variable, value) = value_of(network, x, value)?;
            Ok(Decision::Most { variable, value })
        }
        _ => Err(Kind::Text),
    }
}

/// The step that words spell, with numbers in range, or how they fail.
fn spelled(network: &Network, words: &[&str]) -> Result<Step, Kind> {
    match words {
        ["p", shift @ ..] => {
            let (function, place, value, amount) = shifted(network, shift)?;
            Ok(Step::Project {
                function,
                place,
                value,
                amount,
            })
        }
        ["e", shift @ ..] => {
            let (function, place, value, amount) = shifted(network, shift)?;
            Ok(Step::Extend {
                function,
                place,
                value,
                amount,
            })
        }
        ["u", x, amount] => {
            let (x, amount) = (read(x)?, read_amount(amount)?);
            let variable = below(x, network.variables())?;
            Ok(Step::Lift { variable, amount })
        }
        ["v", x, value] => {
            let (variable, value) = value_of(network, x, value)?;
            Ok(Step::CutValue { variable, value })
        }
        ["t", f, cell] => {
            let (f, cell) = (read(f)?, read(cell)?);
            let function = below(f, network.functions())?;
            let cell = below(cell, cells(network, function))?;
            Ok(Step::CutTuple { function, cell })
        }
        _ => Err(Kind::Text),
    }
}

/// The function, the place, the value and the amount of a project or an extend.
fn shifted(network: &Network, words: &[&str]) -> Result<(u32, u32, u32, u64), Kind> {
    let [f, place, value, amount] = words else {
        return Err(Kind::Text);
    };
    let (f, place, value) = (read(f)?, read(place)?, read(value)?);
    let amount = read_amount(amount)?;
    let function = below(f, network.functions())?;
    let place = below(place, u32::MAX)?;
    let Some(x) = scope(network, function).get(place as usize) else {
        return Err(Kind::Range);
    };
    let value = below(value, size(network, *x))?;
    Ok((function, place, value, amount))
}

/// A variable and one of its values.
fn value_of(network: &Network, x: &str, value: &str) -> Result<(u32, u32), Kind> {
    let (x, value) = (read(x)?, read(value)?);
    let x = below(x, network.variables())?;
    let value = below(value, size(network, x))?;
    Ok((x, value))
}

/// The size of a variable's domain, or 0 where there is no such variable.
fn size(network: &Network, x: u32) -> u32 {
    if x < network.variables() {
        network.size(x)
    } else {
        0
    }
}

/// The variables of a function, or none where there is no such function.
fn scope(network: &Network, f: u32) -> &[u32] {
    if f < network.functions() {
        network.scope(f)
    } else {
        &[]
    }
}

/// How many cells a function has, or 0 where there is no such function.
fn cells(network: &Network, f: u32) -> u32 {
    if f < network.functions() {
        network.cells(f)
    } else {
        0
    }
}

/// A number below a bound.
fn below(number: u64, bound: u32) -> Result<u32, Kind> {
    match u32::try_from(number) {
        Ok(number) if number < bound => Ok(number),
        _ => Err(Kind::Range),
    }
}

/// The number that a word spells.
fn read(word: &str) -> Result<u64, Kind> {
    number(word).ok_or(Kind::Text)
}

/// The amount that a word spells. It is not 0.
fn read_amount(word: &str) -> Result<u64, Kind> {
    match number(word) {
        Some(amount) if amount > 0 => Ok(amount),
        _ => Err(Kind::Text),
    }
}

/// The number that a word spells: digits alone, at most 9,223,372,036,854,775,807, and no 0 in front.
pub(crate) fn number(word: &str) -> Option<u64> {
    let digits = word.as_bytes();
    if digits.is_empty() || (digits.len() > 1 && digits.starts_with(b"0")) {
        return None;
    }
    let mut number: u64 = 0;
    for digit in digits {
        if !digit.is_ascii_digit() {
            return None;
        }
        let value = digit.wrapping_sub(b'0') as u64;
        number = number.checked_mul(10)?.checked_add(value)?;
    }
    if number <= MOST { Some(number) } else { None }
}

/// The words of a line, which single spaces part.
pub(crate) fn words_of(alloc: Global, line: &str) -> Result<Vec<&str>, AllocError> {
    let mut words = Vec::new(alloc);
    for word in line.split(' ') {
        words.push(word)?;
    }
    Ok(words)
}
