//! Good certificates with one word or one line changed: what a run of `check` says of them is what the plain judge
//! says.

use crate::judging::{Kind, Verdict, number, verdict_of, words_of};
use cfn_net::Network;
use cfn_testing::drawing::{Dice, MOST, draw, file_of};
use cfn_testing::running::{certificate_of, check_answers};
use std::alloc::{AllocError, AllocGlobal, Global};
use std::sync::Wait;
use std::test::Fail;
use std::thread::Threads;

/// How many networks are drawn for each upper bound, and how many certificates of each are judged.
const DRAWN: u64 = 6;

const CHANGES: u64 = 60;

/// Words in the place of others.
const WORDS: [&str; 12] = [
    "", "none", "part", "tree", "open", "closed", "split", "p", "e", "u", "v", "t",
];

/// A certificate with one word or one line changed, drawn by the dice.
fn changed(alloc: Global, dice: &mut Dice, lines: &[&str]) -> Result<String, AllocError> {
    let place = dice.below(lines.len() as u64);
    let change = dice.below(9);
    let mut text = String::new(alloc);
    for (number, line) in lines.iter().enumerate() {
        if number as u64 != place {
            write!(text, "{line}\n")?;
            continue;
        }
        match change {
            0 => {}
            1 => write!(text, "{line}\n{line}\n")?,
            2 => draw_line(dice, &mut text)?,
            3 | 4 => {
                draw_line(dice, &mut text)?;
                write!(text, "{line}\n")?;
            }
            _ => change_word(alloc, dice, line, &mut text)?,
        }
    }
    Ok(text)
}

/// Adds a line of a tree.
fn draw_line(dice: &mut Dice, text: &mut String) -> Result<(), AllocError> {
    let (first, second, third) = (dice.below(4), dice.below(3), dice.below(3));
    let amount = dice.up_to(4);
    match dice.below(9) {
        0 => write!(text, "open\n"),
        1 => write!(text, "closed\n"),
        2 => write!(text, "split {first} {second}\n"),
        7 => write!(text, "part {first} {second}\n"),
        3 => write!(text, "p {first} {second} {third} {amount}\n"),
        4 => write!(text, "e {first} {second} {third} {amount}\n"),
        5 => write!(text, "u {first} {amount}\n"),
        6 => write!(text, "v {first} {second}\n"),
        _ => write!(text, "t {first} {second}\n"),
    }
}

/// Adds a line with one word changed.
fn change_word(
    alloc: Global,
    dice: &mut Dice,
    line: &str,
    text: &mut String,
) -> Result<(), AllocError> {
    let words = words_of(alloc, line)?;
    let place = dice.below(words.len() as u64);
    for (number, word) in words.as_slice().iter().enumerate() {
        if number > 0 {
            text.push(' ')?;
        }
        if number as u64 == place {
            draw_word(dice, word, text)?;
        } else {
            text.push_str(word)?;
        }
    }
    text.push('\n')
}

/// Adds a word in the place of this one: mostly a number near it, where it is one.
fn draw_word(dice: &mut Dice, word: &str, text: &mut String) -> Result<(), AllocError> {
    let change = dice.below(12);
    match (number(word), change) {
        (Some(number), 0) => write!(text, "0{number}"),
        (Some(_), 1) => write!(text, "{}", MOST),
        (Some(_), 2) => write!(text, "{}", MOST.saturating_add(1)),
        (Some(_), 3) => write!(text, "4294967296"),
        (Some(number), 4 | 5 | 6 | 7) => write!(text, "{}", number.saturating_add(1)),
        (Some(number), _) => write!(text, "{}", number.saturating_sub(1)),
        (None, _) => text.push_str(WORDS.get(change as usize).copied().unwrap_or("")),
    }
}

/// The lines of a text, of which each has its end.
fn lines_of(alloc: Global, text: &str) -> Result<Vec<&str>, AllocError> {
    let mut lines = Vec::new(alloc);
    for line in text.split('\n') {
        lines.push(line)?;
    }
    let _behind = lines.pop();
    Ok(lines)
}

/// Whether a run of `check` gives this verdict.
fn is_verdict<R: AllocGlobal + Threads + Wait + Sync>(
    rt: &R,
    file: &str,
    certificate: &str,
    verdict: Verdict,
) -> Result<bool, AllocError> {
    let said = verdict.said(rt.alloc())?;
    let (file, certificate) = (file.as_bytes(), certificate.as_bytes());
    check_answers(rt, file, certificate, verdict.status(), said.as_bytes())
}

/// The plain judge's verdict of a certificate.
fn plain_verdict(
    alloc: Global,
    network: &Network,
    certificate: &str,
) -> Result<Verdict, AllocError> {
    let lines = lines_of(alloc, certificate)?;
    verdict_of(alloc, network, lines.as_slice())
}

/// The plain judge's verdict of a certificate, if `check` gives the same.
fn agreed<R: AllocGlobal + Threads + Wait + Sync>(
    rt: &R,
    network: &Network,
    file: &str,
    certificate: &str,
) -> Result<Option<Verdict>, AllocError> {
    let verdict = plain_verdict(rt.alloc(), network, certificate)?;
    Ok(is_verdict(rt, file, certificate, verdict)?.then_some(verdict))
}

/// Judges changes of the lines of a certificate, and adds their verdicts. The answer is the first of which `check` says
/// something else than the plain judge.
fn judge_changes<R: AllocGlobal + Threads + Wait + Sync>(
    rt: &R,
    dice: &mut Dice,
    network: &Network,
    (file, lines): (&str, &[&str]),
    seen: &mut Vec<Verdict>,
) -> Result<Option<String>, AllocError> {
    for _ in 0..CHANGES {
        let other = changed(rt.alloc(), dice, lines)?;
        match agreed(rt, network, file, other.as_str())? {
            Some(verdict) => seen.push(verdict)?,
            None => return Ok(Some(other)),
        }
    }
    Ok(None)
}

/// The same of what `solve` writes of a file with this budget.
fn judge_written<R: AllocGlobal + Threads + Wait + Sync>(
    rt: &R,
    dice: &mut Dice,
    network: &Network,
    (file, budget): (&str, &str),
    seen: &mut Vec<Verdict>,
) -> Result<Option<String>, AllocError> {
    let certificate = certificate_of(rt, file.as_bytes(), budget)?;
    let certificate = std::str::from_utf8(&certificate).unwrap_or("");
    let lines = lines_of(rt.alloc(), certificate)?;
    judge_changes(rt, dice, network, (file, &lines), seen)
}

/// The same of a file with each of three budgets.
fn judge_file<R: AllocGlobal + Threads + Wait + Sync>(
    rt: &R,
    dice: &mut Dice,
    file: &str,
    seen: &mut Vec<Verdict>,
) -> Result<Option<String>, Fail> {
    let network = cfn_wcsp::read(rt.alloc(), file.as_bytes())?;
    for budget in ["1", "3", "1000000"] {
        let wrong = judge_written(rt, dice, &network, (file, budget), seen)?;
        if wrong.is_some() {
            return Ok(wrong);
        }
    }
    Ok(None)
}

/// Whether a certificate was refused so.
fn has_kind(seen: &[Verdict], kind: Kind) -> bool {
    seen.iter().any(|verdict| match verdict {
        Verdict::Refused { kind: other, .. } => *other == kind,
        Verdict::Verified { .. } => false,
    })
}

/// How many certificates were verified.
fn verified(seen: &[Verdict]) -> usize {
    seen.iter()
        .filter(|verdict| match verdict {
            Verdict::Verified { .. } => true,
            Verdict::Refused { .. } => false,
        })
        .count()
}

/// A file that is drawn.
fn drawn(alloc: Global, dice: &mut Dice, upper: u64) -> Result<String, AllocError> {
    let words = draw(alloc, dice, upper)?;
    file_of(alloc, &words)
}

/// The same of drawn files with this upper bound.
fn judge_drawn<R: AllocGlobal + Threads + Wait + Sync>(
    rt: &R,
    dice: &mut Dice,
    upper: u64,
    seen: &mut Vec<Verdict>,
) -> Result<Option<String>, Fail> {
    for _ in 0..DRAWN {
        let file = drawn(rt.alloc(), dice, upper)?;
        let wrong = judge_file(rt, dice, file.as_str(), seen)?;
        if wrong.is_some() {
            return Ok(wrong);
        }
    }
    Ok(None)
}

/// Whether `check` says of each change what the plain judge says, and each kind of a refusal comes, and more than a hundred
/// changes are good.
fn is_judged<R: AllocGlobal + Threads + Wait + Sync>(rt: &R) -> Result<bool, Fail> {
    let mut dice = Dice { state: 11 };
    let mut seen = Vec::new(rt.alloc());
    for upper in [1, 8, 15, 40] {
        if judge_drawn(rt, &mut dice, upper, &mut seen)?.is_some() {
            return Ok(false);
        }
    }
    let seen = seen.as_slice();
    Ok(Kind::ALL.iter().all(|kind| has_kind(seen, *kind)) && verified(seen) > 100)
}

#[test]
fn changed_certificates_are_judged_plainly(rt: HostRuntime) -> Result<(), Fail> {
    assert!(rt; is_judged(&rt)?);
    Ok(())
}
