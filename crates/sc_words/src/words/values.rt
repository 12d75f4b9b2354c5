//! The values of options.
ghost use Rattle.std.specs.Prelude.{◌≡◌};
ghost use Rattle.clap.specs.Matches.{found_of, first_value};
ghost use Rattle.sc_words.specs.Words.{values_by, in_form, number, is_lpfs, times_of, option_text};

use crate::words::table::OptionName;
use crate::words::times::{read_number, read_order, read_times};
use clap::ArgMatches;
use sc_gate::Times;

/// The most regions of a machine, and the most qubits that one region touches in a step.
const MOST_REGIONS: u64 = 1_000_000;

/// The values of the options that have one, where they stand.
#[derive(Debug, Drop)]
pub(crate) struct Values {
    pub(crate) limit: Option<u64>,
    pub(crate) regions: Option<u32>,
    pub(crate) width: Option<u32>,
    pub(crate) lpfs: Option<bool>,
    pub(crate) times: Option<Times>,
}

/// The limit, if it stands. None where it is no number of 64 bits.
fn read_limit(matches: &ArgMatches) -> Option<Option<u64>>
    ensures { result ≡ in_form (number 0 18446744073709551615) (first_value (found_of matches.now) (option_text OptionName.Limit)) }
{
    match matches.get_str(OptionName::Limit.text()) {
        None => Some(None),
        Some(text) => Some(Some(read_number(text.as_bytes(), 0, u64::MAX)?)),
    }
}

/// The number of regions or their width, if it stands. None where it is no number from 1 to 1,000,000.
fn read_size(matches: &ArgMatches, option: OptionName) -> Option<Option<u32>>
    ensures { result ≡ in_form (number 1 1000000) (first_value (found_of matches.now) (option_text option)) }
{
    match matches.get_str(option.text()) {
        None => Some(None),
        Some(text) => Some(Some(read_number(text.as_bytes(), 1, MOST_REGIONS)? as u32)),
    }
}

/// Whether the order is `lpfs`, if one stands. None where it is no order.
fn read_lpfs(matches: &ArgMatches) -> Option<Option<bool>>
    ensures { result ≡ in_form is_lpfs (first_value (found_of matches.now) (option_text OptionName.Order)) }
{
    match matches.get_str(OptionName::Order.text()) {
        None => Some(None),
        Some(text) => Some(Some(read_order(text)?)),
    }
}

/// The durations, if some stand. None where they are no times list.
fn read_durations(matches: &ArgMatches) -> Option<Option<Times>>
    ensures { result ≡ in_form times_of (first_value (found_of matches.now) (option_text OptionName.Times)) }
{
    match matches.get_str(OptionName::Times.text()) {
        None => Some(None),
        Some(text) => Some(Some(read_times(text)?)),
    }
}

/// The values of the options, if all are in their forms.
pub(crate) fn read_values(matches: &ArgMatches) -> Option<Values>
    ensures { result ≡ values_by (λ o. first_value (found_of matches.now) (option_text o)) }
{
    Some(Values {
        limit: read_limit(matches)?,
        regions: read_size(matches, OptionName::Regions)?,
        width: read_size(matches, OptionName::Width)?,
        lpfs: read_lpfs(matches)?,
        times: read_durations(matches)?,
    })
}
