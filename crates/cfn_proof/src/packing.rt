//! Steps packed into bytes.
//!
//! A step is two numbers, or four where it shifts between a function and a value: five times its function or variable
//! and the number of its kind, and then its other numbers. A number is its groups of seven bits, the least first, and
//! 128 is added to each but the last (unsigned LEB128, DWARF Debugging Information Format). So most steps take 4 to 6
//! bytes. What bytes mean is defined in specs/Packing.antt.

ghost use Rattle.std.specs.Prelude.{◌≡◌, ℕ, ◌+◌, ◌<◌, ◌≤◌, ◌%◌, ◌/◌, ◌^◌, List, [], ◌∷◌, ◌++◌, length, OnOk, OnErr};
ghost use Rattle.cfn_model.specs.Text.{IsSpelledStep};
ghost use Rattle.cfn_proof.specs.Packing.{Adds, GoesOn, IsPacked, IsSmallStep, IsWhole, first_of, four_as_step, numbers_in, numbers_of, two_as_step, unpacked};

use cfn_model::Step;
use std::alloc::AllocError;

/// Adds the bytes of a step. An `Err`, want of memory, may leave some of them.
#[inline(always)]
pub(crate) fn push_step(bytes: &mut Vec<u8>, step: Step) -> Result<(), AllocError>
    requires { IsSpelledStep step }
    ensures small { IsSmallStep step }
    ensures ok { OnOk result (Adds bytes.old.items bytes.new.items (numbers_of step)) }
    ensures err { OnErr result (GoesOn bytes.old.items bytes.new.items) }
{
    match step {
        Step::Project {
            function,
            place,
            value,
            amount,
        } => push_four(
            bytes,
            u64::from(function) * 5,
            u64::from(place),
            u64::from(value),
            amount,
        ),
        Step::Extend {
            function,
            place,
            value,
            amount,
        } => push_four(
            bytes,
            u64::from(function) * 5 + 1,
            u64::from(place),
            u64::from(value),
            amount,
        ),
        Step::Lift { variable, amount } => push_two(bytes, u64::from(variable) * 5 + 2, amount),
        Step::CutValue { variable, value } => {
            push_two(bytes, u64::from(variable) * 5 + 3, u64::from(value))
        }
        Step::CutTuple { function, cell } => {
            push_two(bytes, u64::from(function) * 5 + 4, u64::from(cell))
        }
    }
}

/// Adds the bytes of four numbers. An `Err`, want of memory, may leave some of them.
#[inline(always)]
fn push_four(
    bytes: &mut Vec<u8>,
    first: u64,
    second: u64,
    third: u64,
    fourth: u64,
) -> Result<(), AllocError>
    ensures ok { OnOk result (Adds bytes.old.items bytes.new.items (first ∷ second ∷ third ∷ fourth ∷ [])) }
    ensures err { OnErr result (GoesOn bytes.old.items bytes.new.items) }
{
    push_two(bytes, first, second)?;
    push_two(bytes, third, fourth)
}

/// Adds the bytes of two numbers. An `Err`, want of memory, may leave some of them.
#[inline(always)]
fn push_two(bytes: &mut Vec<u8>, first: u64, second: u64) -> Result<(), AllocError>
    ensures ok { OnOk result (Adds bytes.old.items bytes.new.items (first ∷ second ∷ [])) }
    ensures err { OnErr result (GoesOn bytes.old.items bytes.new.items) }
{
    push_number(bytes, first)?;
    push_number(bytes, second)
}

/// Adds the bytes of a number. An `Err`, want of memory, may leave some of them.
#[inline(always)]
fn push_number(bytes: &mut Vec<u8>, number: u64) -> Result<(), AllocError>
    ensures ok { OnOk result (Adds bytes.old.items bytes.new.items (number ∷ [])) }
    ensures err { OnErr result (GoesOn bytes.old.items bytes.new.items) }
{
    let mut left = number;
    while left >= 128 {
        bytes.push((left % 128) as u8 + 128)?;
        left /= 128;
    }
    bytes.push(left as u8)?;
    Ok(())
}

/// The first step of packed bytes, and the bytes behind it.
#[inline(always)]
pub(crate) fn first_step(bytes: &[u8]) -> (Step, &[u8])
    requires packed { IsPacked bytes.now }
    requires some { 0 < length (numbers_in bytes.now) }
    ensures step { unpacked bytes.now ≡ result.0 ∷ unpacked result.1.now }
    ensures packed { IsPacked result.1.now }
    ensures shorter { length result.1.now < length bytes.now }
{
    let (first, behind) = first_number(bytes);
    let (second, behind) = first_number(behind);
    if first % 5 >= 2 {
        return (step_of_two(first, second), behind);
    }
    let (third, behind) = first_number(behind);
    let (fourth, behind) = first_number(behind);
    (step_of_four(first, second, third, fourth), behind)
}

/// The step of two numbers.
fn step_of_two(first: u64, second: u64) -> Step
    requires { IsSmallStep (two_as_step first second) }
    ensures { result ≡ two_as_step first second }
{
    let of = (first / 5) as u32;
    match first % 5 {
        2 => Step::Lift {
            variable: of,
            amount: second,
        },
        3 => Step::CutValue {
            variable: of,
            value: second as u32,
        },
        _ => Step::CutTuple {
            function: of,
            cell: second as u32,
        },
    }
}

/// The step of four numbers.
fn step_of_four(first: u64, second: u64, third: u64, fourth: u64) -> Step
    requires { IsSmallStep (four_as_step first second third fourth) }
    ensures { result ≡ four_as_step first second third fourth }
{
    let function = (first / 5) as u32;
    let place = second as u32;
    let value = third as u32;
    if first % 5 == 0 {
        Step::Project {
            function,
            place,
            value,
            amount: fourth,
        }
    } else {
        Step::Extend {
            function,
            place,
            value,
            amount: fourth,
        }
    }
}

/// The number that bytes begin with, and the bytes behind it. Most numbers have one byte or two.
#[inline(always)]
fn first_number(bytes: &[u8]) -> (u64, &[u8])
    requires whole { IsWhole bytes.now }
    requires some { 0 < length (numbers_in bytes.now) }
    requires fits { first_of (numbers_in bytes.now) < 2 ^ 64 }
    ensures number { numbers_in bytes.now ≡ result.0 ∷ numbers_in result.1.now }
    ensures whole { IsWhole result.1.now }
    ensures shorter { length result.1.now < length bytes.now }
{
    if let Some((byte, behind)) = bytes.split_first() {
        if *byte < 128 {
            return (u64::from(*byte), behind);
        }
        if let Some((second, behind)) = behind.split_first() {
            if *second < 128 {
                return (u64::from(*byte - 128) + u64::from(*second) * 128, behind);
            }
        }
    }
    let mut left = bytes;
    let number = take_number(&mut left);
    (number, left)
}

/// Takes a number of any length from the front of bytes.
#[inline(never)]
fn take_number(bytes: &mut &[u8]) -> u64
    requires whole { IsWhole bytes.old.now }
    requires some { 0 < length (numbers_in bytes.old.now) }
    requires fits { first_of (numbers_in bytes.old.now) < 2 ^ 64 }
    ensures number { numbers_in bytes.old.now ≡ result ∷ numbers_in bytes.new.now }
    ensures whole { IsWhole bytes.new.now }
    ensures shorter { length bytes.new.now < length bytes.old.now }
{
    let mut number = 0;
    let mut scale = 1;
    let mut left = *bytes;
    while let Some((byte, behind)) = left.split_first() {
        left = behind;
        if *byte < 128 {
            *bytes = left;
            return number + u64::from(*byte) * scale;
        }
        number += u64::from(*byte - 128) * scale;
        scale *= 128;
    }
    *bytes = left;
    number
}
