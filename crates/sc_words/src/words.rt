//! What the words of the command line ask for.
mod ask;
mod command;
mod table;
mod times;
mod values;

ghost use Rattle.std.specs.Prelude.{◌≡◌, map, Some, None, IfOk, IsErrOf};
ghost use Rattle.std.specs.Rc.{rc_str_bytes};
ghost use Rattle.sc_words.specs.Words.{request};

use crate::request::{Request, WordsFault};
use crate::words::ask::ask;
use crate::words::command::read_row;
use crate::words::table::mode_named;
use std::alloc::Global;
use std::rc::RcStr;

/// The request of the words after the program's name: a mode, and after it the options and operands of its row.
/// `Usage` says that the words have no request.
pub fn read_words(alloc: Global, words: &[RcStr]) -> Result<Request, WordsFault>
    ensures asked { IfOk result (λ r. request (map rc_str_bytes words.now) ≡ Some r) }
    ensures usage { IsErrOf result WordsFault.Usage → request (map rc_str_bytes words.now) ≡ None }
{
    let [word, rest @ ..] = words else {
        return Err(WordsFault::Usage);
    };
    let Some(mode) = mode_named(word.as_str()) else {
        return Err(WordsFault::Usage);
    };
    let matches = read_row(alloc, mode, rest)?;
    ask(alloc, mode, &matches)
}
