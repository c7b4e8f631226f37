//! The lines of the program: numbers, names of refusals and limits, usage; and writing one.

ghost use Rattle.std.specs.Prelude.{◌≡◌, ◌++◌, IfOk, OnOk, map, option_map, string_bytes};
ghost use Rattle.fancy_expr.specs.declared.error.Error.TheVariants as error;
ghost use Rattle.fancy_command.specs.Printing as printed;
ghost use Rattle.fancy_command.specs.Writing.{Writes};

use fancy_expr::error::{CompileError, Error, RuntimeError};
use std::alloc::{AllocError, Global};
use std::io::{ErrorKind, Write};

/// A number of an answer, or `-` for one that is not set.
fn push_number(line: &mut String, number: usize) -> Result<(), AllocError>
    ensures { OnOk result
        (string_bytes line.new ≡ string_bytes line.old ++ printed.number_text number) }
{
    if number == usize::MAX {
        line.push_str("-")
    } else {
        write!(line, "{number}")
    }
}

/// The numbers of an answer, separated by spaces.
fn push_numbers(line: &mut String, numbers: &[usize]) -> Result<(), AllocError>
    ensures { OnOk result
        (string_bytes line.new ≡ string_bytes line.old ++ printed.numbers_text numbers.now) }
{
    let Some((first, others)) = numbers.split_first() else {
        return Ok(());
    };
    push_number(line, *first)?;
    for number in others {
        line.push(' ')?;
        push_number(line, *number)?;
    }
    Ok(())
}

/// The line of an answer: its numbers separated by spaces, `-` for `usize::MAX`, or `none`.
pub fn answer_line(alloc: Global, answer: &Option<Vec<usize>>) -> Result<String, AllocError>
    ensures { IfOk result (λ line. string_bytes line ≡ printed.answer_line answer.now) }
{
    let mut line = String::new(alloc);
    match answer {
        None => line.push_str("none")?,
        Some(numbers) => push_numbers(&mut line, numbers)?,
    }
    line.push('\n')?;
    Ok(line)
}

/// The name of the limit that a run passed.
fn limit_name(error: RuntimeError) -> &'static str
    ensures { result.now ≡ printed.limit_text error }
{
    match error {
        RuntimeError::BacktrackLimitExceeded => "BacktrackLimitExceeded",
        RuntimeError::StackOverflow => "StackOverflow",
        RuntimeError::StepLimitExceeded => "StepLimitExceeded",
    }
}

/// The name of the case in which a tree is refused, and for two of them a space and what they carry.
fn push_compile_error(line: &mut String, error: &CompileError) -> Result<(), AllocError>
    ensures { OnOk result
        (string_bytes line.new ≡ string_bytes line.old ++ printed.compile_error_text error.now) }
{
    match error {
        CompileError::NamedBackrefOnly => line.push_str("NamedBackrefOnly"),
        CompileError::FeatureNotYetSupported => line.push_str("FeatureNotYetSupported"),
        CompileError::SubroutineCallTargetNotFound => line.push_str("SubroutineCallTargetNotFound"),
        CompileError::UnresolvedAstNode => line.push_str("UnresolvedAstNode"),
        CompileError::InvalidBackref(group) => write!(line, "InvalidBackref {group}"),
        CompileError::LeftRecursiveSubroutineCall(group) => {
            write!(line, "LeftRecursiveSubroutineCall {group}")
        }
        CompileError::NeverEndingRecursion => line.push_str("NeverEndingRecursion"),
        CompileError::VariableLookBehindRequiresFeature => {
            line.push_str("VariableLookBehindRequiresFeature")
        }
        CompileError::InnerError(_) => line.push_str("InnerError"),
        CompileError::ClassTooBig(_) => line.push_str("ClassTooBig"),
        CompileError::PatternTooComplex => line.push_str("PatternTooComplex"),
    }
}

/// The name of a refusal's innermost variant, and for some a space and what it carries.
fn push_error(line: &mut String, error: &Error) -> Result<(), AllocError>
    ensures { OnOk result
        (string_bytes line.new ≡ string_bytes line.old ++ printed.error_text error.now) }
{
    match error {
        Error::CompileError(error) => push_compile_error(line, error),
        Error::RuntimeError(error) => line.push_str(limit_name(*error)),
        Error::TreeFault { at } => write!(line, "TreeFault {at}"),
        Error::NestLimitExceeded => line.push_str("NestLimitExceeded"),
        Error::Memory => line.push_str("Memory"),
    }
}

/// The line of a refusal.
pub fn error_line(alloc: Global, error: &Error) -> Result<String, AllocError>
    ensures { IfOk result (λ line. string_bytes line ≡ printed.error_line error.now) }
{
    let mut line = String::new(alloc);
    push_error(&mut line, error)?;
    line.push('\n')?;
    Ok(line)
}

/// The line of `Memory`, which needs no memory.
pub fn memory_line() -> &'static [u8]
    ensures { result.now ≡ printed.error_line error.Memory }
{
    b"Memory\n"
}

/// The line of a tree that nests too deep.
pub fn depth_line() -> &'static [u8]
    ensures { result.now ≡ printed.depth_line }
{
    b"RecursionExceeded\n"
}

/// The line that says how the program is called.
pub fn usage_line() -> &'static [u8]
    ensures { result.now ≡ printed.usage_line }
{
    b"usage: fancyrun TREE TEXT [POS] [options]\n"
}

/// Writes the line. Where a write fails, no more is written than a part of the line from its start, and the answer is
/// no. A write that was interrupted is made again.
pub fn write_line<W: Write>(writer: &mut W, line: &[u8]) -> bool
    ensures { Writes (W.contents writer.old) (W.contents writer.new) line.now result }
{
    let mut done = 0;
    for _turn in 0..u64::MAX {
        if done == line.len() {
            return true;
        }
        match writer.write(&line[done..]) {
            Ok(0) => return false,
            Ok(count) => done += count,
            Err(error) if error.kind() == ErrorKind::Interrupted => {}
            Err(_) => return false,
        }
    }
    done == line.len()
}
