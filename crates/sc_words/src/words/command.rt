//! The command of a mode, and the matches of its words.
ghost use Rattle.std.specs.Prelude.{◌≡◌, ◌≤◌, map, false, take, None, IfOk, IsErrOf};
ghost use Rattle.std.specs.Rc.{rc_str_bytes};
ghost use Rattle.clap.specs.Matches.{found_of};
ghost use Rattle.clap.specs.Simple.{app_of, new_rule};
ghost use Rattle.clap.specs.Walk.{rule_of};
ghost use Rattle.sc_words.specs.Words.{row_request};
ghost use Rattle.sc_words.specs.WordsCommands.{AreOfWords, action_of, command_of, named_rule, operand_names, option_rule, with_rules};

use crate::request::WordsFault;
use crate::words::table::{Mode, OptionName};
use clap::error::ErrorKind;
use clap::{Arg, ArgAction, ArgMatches, Command};
use sc_base::Memory;
use std::alloc::Global;
use std::rc::RcStr;

/// The names of operands in a command, by their places.
pub(crate) const OPERANDS: [&str; 2] = ["first", "second"];

/// How an option is read: it has no value or one.
fn action_of(option: OptionName) -> ArgAction
    ensures { result ≡ action_of option }
{
    if option.is_flag() {
        ArgAction::SetTrue
    } else {
        ArgAction::Set
    }
}

/// The argument with a long name.
fn named_argument<'a>(alloc: Global, name: &'a str, action: ArgAction) -> Arg<'a>
    ensures rule { rule_of result ≡ named_rule name.now action }
    ensures local { result.global ≡ false }
{
    Arg::new(alloc, name).long(name).action(action)
}

/// The command with these options.
fn with_options<'a>(
    alloc: Global,
    mut command: Command<'a>,
    options: &[OptionName],
) -> Result<Command<'a>, Memory>
    ensures { IfOk result (λ r. app_of r ≡ with_rules (app_of command.entry) (map option_rule options.now)) }
{
    for option in options {
        let name: &'a str = option.text();
        command = command.arg(named_argument(alloc, name, action_of(*option)))?;
    }
    Ok(command)
}

/// The command with the first operands.
fn with_operands<'a>(
    alloc: Global,
    mut command: Command<'a>,
    count: usize,
) -> Result<Command<'a>, Memory>
    requires { count ≤ 2 }
    ensures { IfOk result (λ r. app_of r ≡ with_rules (app_of command.entry) (map new_rule (take count operand_names))) }
{
    for name in &OPERANDS[..count] {
        command = command.arg(Arg::new(alloc, *name))?;
    }
    Ok(command)
}

/// The command of a mode.
fn command_of<'a>(alloc: Global, mode: Mode) -> Result<Command<'a>, Memory>
    ensures { IfOk result (λ r. app_of r ≡ command_of mode) }
{
    let name: &'a str = mode.text();
    let command = Command::new(alloc, name)
        .no_binary_name(true)
        .disable_help_flag(true);
    let command = with_options(alloc, command, mode.options())?;
    with_operands(alloc, command, mode.operand_count())
}

/// The options and operands in the words after a mode. `Usage` says that the words are none of its row, or that a
/// value is not in its form.
pub(crate) fn read_row<'a>(
    alloc: Global,
    mode: Mode,
    words: &'a [RcStr],
) -> Result<ArgMatches<'a>, WordsFault>
    ensures found { IfOk result (λ m. AreOfWords mode (map rc_str_bytes words.now) (found_of m)) }
    ensures usage { IsErrOf result WordsFault.Usage → row_request mode (map rc_str_bytes words.now) ≡ None }
{
    let command = command_of(alloc, mode)?;
    match command.try_get_matches_from(words) {
        Ok(matches) => Ok(matches),
        Err(error) => match error.kind() {
            ErrorKind::OutOfMemory => Err(WordsFault::Memory),
            _ => Err(WordsFault::Usage),
        },
    }
}
