//! What the options and operands of a mode ask for.
ghost use Rattle.std.specs.Prelude.{◌≡◌, true, List, Some, None, IfOk, IsErrOf};
ghost use Rattle.clap.specs.Matches.{found_of};
ghost use Rattle.sc_words.specs.Words.{Piece, stands, is_flag, asked_of, choice_of};
ghost use Rattle.sc_words.specs.WordsCommands.{AreOf, asked_by};
ghost use Rattle.sc_words.specs.declared.words.table.Mode.{Mode as Modes};
ghost use Rattle.sc_words.specs.declared.words.values.Values.{Values as Given};

use crate::request::{Request, WordsFault};
use crate::words::command::OPERANDS;
use crate::words::table::{Mode, OptionName};
use crate::words::times::read_number;
use crate::words::values::{Values, read_values};
use clap::ArgMatches;
use sc_base::Text;
use sc_meaning::Choice;
use std::alloc::Global;

/// The most gates of a flat text, where the words name no limit.
const DEFAULT_LIMIT: u64 = 10_000_000;

/// The largest drill.
const LARGEST_DRILL: u64 = 50_000;

/// Whether a flag stands.
fn stands(matches: &ArgMatches, option: OptionName) -> bool
    requires { is_flag option ≡ true }
    ensures { (mode : Modes) (pieces : List Piece) → AreOf mode (found_of matches.now) pieces → result ≡ stands option pieces }
{
    matches.get_flag(option.text())
}

/// Whether Toffoli and Fredkin gates stay.
fn choice_of(matches: &ArgMatches) -> Choice
    ensures { (mode : Modes) (pieces : List Piece) → AreOf mode (found_of matches.now) pieces → result ≡ choice_of pieces }
{
    if stands(matches, OptionName::Keep) {
        Choice::Keep
    } else {
        Choice::Replace
    }
}

/// The request of `flat`.
fn flat_request(matches: &ArgMatches, values: &Values, file: Text) -> Request
    ensures { (mode : Modes) (pieces : List Piece) → AreOf mode (found_of matches.now) pieces → asked_of Mode.Flat pieces values.now file ≡ Some result }
{
    Request::Flat {
        file,
        choice: choice_of(matches),
        limit: values.limit.unwrap_or(DEFAULT_LIMIT),
        kinds: stands(matches, OptionName::Kinds),
        burst: stands(matches, OptionName::Burst),
        window: stands(matches, OptionName::Window),
        reach: stands(matches, OptionName::Reach),
    }
}

/// The request of `cancel`.
fn cancel_request(matches: &ArgMatches, file: Text) -> Request
    ensures { (mode : Modes) (pieces : List Piece) (values : Given) → AreOf mode (found_of matches.now) pieces → asked_of Mode.Cancel pieces values file ≡ Some result }
{
    Request::Cancel {
        file,
        choice: choice_of(matches),
        kinds: stands(matches, OptionName::Kinds),
        burst: stands(matches, OptionName::Burst),
        window: stands(matches, OptionName::Window),
        reach: stands(matches, OptionName::Reach),
    }
}

/// The request of `schedule`, which needs both sizes.
fn schedule_request(matches: &ArgMatches, values: Values, file: Text) -> Option<Request>
    ensures { (mode : Modes) (pieces : List Piece) → AreOf mode (found_of matches.now) pieces → asked_of Mode.Schedule pieces values file ≡ result }
{
    let (Some(k), Some(d)) = (values.regions, values.width) else {
        return None;
    };
    Some(Request::Schedule {
        file,
        choice: choice_of(matches),
        k,
        d,
        lpfs: values.lpfs.unwrap_or(false),
        times: values.times,
    })
}

/// The request of `coarse`, which needs both sizes.
fn coarse_request(matches: &ArgMatches, values: &Values, file: Text) -> Option<Request>
    ensures { (mode : Modes) (pieces : List Piece) → AreOf mode (found_of matches.now) pieces → asked_of Mode.Coarse pieces values.now file ≡ result }
{
    let (Some(k), Some(d)) = (values.regions, values.width) else {
        return None;
    };
    Some(Request::Coarse {
        file,
        choice: choice_of(matches),
        k,
        d,
        lpfs: values.lpfs.unwrap_or(false),
    })
}

/// The request of `check`, which needs a second operand.
fn check_request(alloc: Global, matches: &ArgMatches, flat: Text) -> Result<Request, WordsFault>
    ensures asked { IfOk result (λ r. (mode : Modes) (pieces : List Piece) (values : Given) → AreOf mode (found_of matches.now) pieces → asked_of Mode.Check pieces values flat ≡ Some r) }
    ensures usage { IsErrOf result WordsFault.Usage → (mode : Modes) (pieces : List Piece) (values : Given) → AreOf mode (found_of matches.now) pieces → asked_of Mode.Check pieces values flat ≡ None }
{
    let Some(schedule) = matches.get_str(OPERANDS[1]) else {
        return Err(WordsFault::Usage);
    };
    let schedule = Text::from_bytes(alloc, schedule.as_bytes())?;
    Ok(Request::Check { flat, schedule })
}

/// The request of `drill`, whose operand is a number.
fn drill_request(operand: &Text) -> Option<Request>
    ensures { (pieces : List Piece) (values : Given) → asked_of Mode.Drill pieces values operand.now ≡ result }
{
    let Some(n) = read_number(operand.as_bytes(), 1, LARGEST_DRILL) else {
        return None;
    };
    Some(Request::Drill { n: n as u32 })
}

/// What a mode asks for with its first operand, its flags and its values.
fn ask_with(
    alloc: Global,
    mode: Mode,
    matches: &ArgMatches,
    values: Values,
    file: Text,
) -> Result<Request, WordsFault>
    ensures asked { IfOk result (λ r. (pieces : List Piece) → AreOf mode (found_of matches.now) pieces → asked_of mode pieces values file ≡ Some r) }
    ensures usage { IsErrOf result WordsFault.Usage → (pieces : List Piece) → AreOf mode (found_of matches.now) pieces → asked_of mode pieces values file ≡ None }
{
    let choice = choice_of(matches);
    match mode {
        Mode::Hier => Ok(Request::Hier { file, choice }),
        Mode::Flat => Ok(flat_request(matches, &values, file)),
        Mode::Count => Ok(Request::Count {
            file,
            choice,
            times: values.times,
        }),
        Mode::Schedule => schedule_request(matches, values, file).ok_or(WordsFault::Usage),
        Mode::Expand => Ok(Request::Expand {
            file,
            limit: values.limit.unwrap_or(DEFAULT_LIMIT),
        }),
        Mode::Check => check_request(alloc, matches, file),
        Mode::Drill => drill_request(&file).ok_or(WordsFault::Usage),
        Mode::Coarse => coarse_request(matches, &values, file).ok_or(WordsFault::Usage),
        Mode::Open => Ok(Request::ToOpen { file, choice }),
        Mode::Reopen => Ok(Request::FromOpen { file }),
        Mode::Cancel => Ok(cancel_request(matches, file)),
    }
}

/// What the options and operands of a mode ask for. `Usage` says that they ask for nothing: an operand or a size is
/// missing, or a value is not in its form.
pub(crate) fn ask(alloc: Global, mode: Mode, matches: &ArgMatches) -> Result<Request, WordsFault>
    ensures asked { IfOk result (λ r. (pieces : List Piece) → AreOf mode (found_of matches.now) pieces → asked_by mode pieces ≡ Some r) }
    ensures usage { IsErrOf result WordsFault.Usage → (pieces : List Piece) → AreOf mode (found_of matches.now) pieces → asked_by mode pieces ≡ None }
{
    let Some(values) = read_values(matches) else {
        return Err(WordsFault::Usage);
    };
    let Some(first) = matches.get_str(OPERANDS[0]) else {
        return Err(WordsFault::Usage);
    };
    let file = Text::from_bytes(alloc, first.as_bytes())?;
    ask_with(alloc, mode, matches, values, file)
}
