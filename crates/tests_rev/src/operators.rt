//! All functions of one operator over words of one to three bits, and of two operators over words of one and two bits, run on
//! every assignment. `bench/reversible.py` runs those of two operators over words of three bits.
use crate::functions::{body_of, check_run};
use std::alloc::{AllocError, Global};
use std::process::Abort;
use std::test::Fail;

/// An operator on a left word and, for most of them, a right one.
#[derive(Clone, Copy, Debug, PartialEq, Eq)]
enum Operator {
    Not,
    And,
    Or,
    Xor,
    Add,
    Sub,
    Mul,
    Less,
    Same,
    Left(u32),
    Right(u32),
    PlusOne,
    Extend,
    Lowest,
    Choose,
}

const OPERATORS: [Operator; 17] = [
    Operator::Not,
    Operator::And,
    Operator::Or,
    Operator::Xor,
    Operator::Add,
    Operator::Sub,
    Operator::Mul,
    Operator::Less,
    Operator::Same,
    Operator::Left(1),
    Operator::Left(5),
    Operator::Right(1),
    Operator::Right(2),
    Operator::PlusOne,
    Operator::Extend,
    Operator::Lowest,
    Operator::Choose,
];

/// The two words on which an operator works: the left one and one named b, or twice the left one.
#[derive(Clone, Copy, Debug, PartialEq, Eq)]
pub enum Operands {
    Two,
    One,
}

/// A function of the words a and b of this width. Its first operator works on a; a second one works on the word that the first
/// one makes, which is bound to a name.
#[derive(Clone, Copy, Debug)]
struct Function {
    width: u32,
    first: Operator,
    second: Option<Operator>,
    operands: Operands,
}

fn power_of_two(n: u32) -> u64 {
    1u64.checked_shl(n).unwrap_or(0)
}

/// A number modulo 2^width.
fn modulo(number: u64, width: u32) -> u64 {
    number % power_of_two(width).max(1)
}

impl Operator {
    /// The width of the word that it makes of words of this width.
    fn width_after(self, width: u32) -> u32 {
        match self {
            Operator::Less | Operator::Same | Operator::Lowest => 1,
            Operator::Extend => width.saturating_add(1),
            _ => width,
        }
    }

    /// Its text on two words of this width.
    fn text(
        self,
        alloc: Global,
        left: &str,
        right: &str,
        width: u32,
    ) -> Result<String, AllocError> {
        let wider = width.saturating_add(1);
        match self {
            Operator::Not => format!(in alloc; "~{left}"),
            Operator::And => format!(in alloc; "{left} & {right}"),
            Operator::Or => format!(in alloc; "{left} | {right}"),
            Operator::Xor => format!(in alloc; "{left} ^ {right}"),
            Operator::Add => format!(in alloc; "{left} + {right}"),
            Operator::Sub => format!(in alloc; "{left} - {right}"),
            Operator::Mul => format!(in alloc; "{left} * {right}"),
            Operator::Less => format!(in alloc; "{left} < {right}"),
            Operator::Same => format!(in alloc; "{left} == {right}"),
            Operator::Left(by) => format!(in alloc; "{left} << {by}"),
            Operator::Right(by) => format!(in alloc; "{left} >> {by}"),
            Operator::PlusOne => format!(in alloc; "{left} + 1"),
            Operator::Extend => format!(in alloc; "ext({left}, {wider})"),
            Operator::Lowest => format!(in alloc; "low({left}, 1)"),
            Operator::Choose => format!(in alloc; "low({right}, 1) ? {left} : {right}"),
        }
    }

    /// Its value on two numbers below 2^width.
    fn value(self, left: u64, right: u64, width: u32) -> u64 {
        match self {
            Operator::Not => modulo(left.wrapping_add(1).wrapping_neg(), width),
            Operator::And => left & right,
            Operator::Or => left | right,
            Operator::Xor => left ^ right,
            Operator::Add => modulo(left.wrapping_add(right), width),
            Operator::Sub => modulo(left.wrapping_sub(right), width),
            Operator::Mul => modulo(left.wrapping_mul(right), width),
            Operator::Less => u64::from(left < right),
            Operator::Same => u64::from(left == right),
            Operator::Left(by) => modulo(left.wrapping_mul(power_of_two(by)), width),
            Operator::Right(by) => left / power_of_two(by).max(1),
            Operator::PlusOne => modulo(left.wrapping_add(1), width),
            Operator::Extend => left,
            Operator::Lowest => left % 2,
            Operator::Choose => if right % 2 == 1 { left } else { right },
        }
    }
}

/// The word b of a width, from b of another width.
fn fitted(alloc: Global, from: u32, to: u32) -> Result<String, AllocError> {
    if to < from {
        format!(in alloc; "low(b, {to})")
    } else if from < to {
        format!(in alloc; "ext(b, {to})")
    } else {
        format!(in alloc; "b")
    }
}

impl Function {
    fn right(self, alloc: Global, left: &str, width: u32) -> Result<String, AllocError> {
        match self.operands {
            Operands::One => format!(in alloc; "{left}"),
            Operands::Two => fitted(alloc, self.width, width),
        }
    }

    fn right_value(self, left: u64, b: u64, width: u32) -> u64 {
        match self.operands {
            Operands::One => left,
            Operands::Two => modulo(b, width),
        }
    }

    fn outputs(self) -> u32 {
        let middle = self.first.width_after(self.width);
        match self.second {
            Some(second) => second.width_after(middle),
            None => middle,
        }
    }

    fn text(self, alloc: Global) -> Result<String, AllocError> {
        let (width, outputs) = (self.width, self.outputs());
        let first = self
            .first
            .text(alloc, "a", self.right(alloc, "a", width)?.as_str(), width)?;
        let head = format!(in alloc; "classical f(a[{width}], b[{width}]) : {outputs}")?;
        let Some(second) = self.second else {
            return format!(in alloc; "{head} {{ return {first}; }}");
        };
        let middle = self.first.width_after(width);
        let last = second.text(alloc, "t", self.right(alloc, "t", middle)?.as_str(), middle)?;
        format!(in alloc; "{head} {{ t = {first}; return {last}; }}")
    }

    fn value(self, a: u64, b: u64) -> u64 {
        let first = self
            .first
            .value(a, self.right_value(a, b, self.width), self.width);
        let Some(second) = self.second else {
            return first;
        };
        let middle = self.first.width_after(self.width);
        second.value(first, self.right_value(first, b, middle), middle)
    }
}

/// Runs the function on every assignment of its words and its output.
fn check_function(rt: &impl Abort, alloc: Global, function: Function) -> Result<(), Fail> {
    let body = body_of(rt, alloc, function.text(alloc)?.as_str())?;
    for words in 0..power_of_two(function.width.saturating_mul(2)) {
        let (a, b) = (
            modulo(words, function.width),
            words / power_of_two(function.width).max(1),
        );
        let value = function.value(a, b);
        for output in 0..power_of_two(function.outputs()) {
            check_run(
                rt,
                alloc,
                &body,
                function.outputs(),
                words,
                output,
                output ^ value,
            )?;
        }
    }
    Ok(())
}

/// All functions of one operator.
fn check_single(
    rt: &impl Abort,
    alloc: Global,
    width: u32,
    operands: Operands,
) -> Result<(), Fail> {
    for first in OPERATORS {
        let function = Function {
            width,
            first,
            second: None,
            operands,
        };
        check_function(rt, alloc, function)?;
    }
    Ok(())
}

/// All functions of two operators, of which this is the second.
fn check_second(
    rt: &impl Abort,
    alloc: Global,
    width: u32,
    operands: Operands,
    second: Operator,
) -> Result<(), Fail> {
    for first in OPERATORS {
        let function = Function {
            width,
            first,
            second: Some(second),
            operands,
        };
        check_function(rt, alloc, function)?;
    }
    Ok(())
}

/// All functions of two operators.
pub fn check_pairs(
    rt: &impl Abort,
    alloc: Global,
    width: u32,
    operands: Operands,
) -> Result<(), Fail> {
    for second in OPERATORS {
        check_second(rt, alloc, width, operands, second)?;
    }
    Ok(())
}

#[test]
fn one_operator(rt: HostRuntime) -> Result<(), Fail> {
    for width in 1..4 {
        check_single(&rt, rt.alloc(), width, Operands::Two)?;
        check_single(&rt, rt.alloc(), width, Operands::One)?;
    }
    Ok(())
}

#[test]
fn two_operators_on_two_words(rt: HostRuntime) -> Result<(), Fail> {
    for width in 1..4 {
        check_pairs(&rt, rt.alloc(), width, Operands::Two)?;
    }
    Ok(())
}

#[test]
fn two_operators_on_one_word_twice(rt: HostRuntime) -> Result<(), Fail> {
    for width in 1..4 {
        check_pairs(&rt, rt.alloc(), width, Operands::One)?;
    }
    Ok(())
}
