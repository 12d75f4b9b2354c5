//! The terminals of the grammar.
ghost use Rattle.std.specs.Prelude.{◌≡◌, find};
ghost use Rattle.std.specs.List.{list_any};
ghost use Rattle.sc_parse.specs.Terminals.{kind_of, name_kind, fits, takes_mark, takes_word};

use sc_base::GateName;
use sc_syntax::{Mark, TokenSort, Word};

/// What may stand at a place of the grammar where one token stands.
#[derive(Clone, Copy, Debug)]
pub enum Terminal {
    Word(Word),
    Mark(Mark),
    /// Any name.
    Name,
    /// The name `main`.
    Main,
    /// The name `ext`.
    Ext,
    /// The name `low`.
    Low,
    /// Any name but `ext` and `low`.
    Plain,
    /// Any name but `main`, `ext` and `low`.
    Other,
    /// Any gate name.
    Gate,
    /// `MeasX` or `MeasZ`.
    Measuring,
    Int,
    Decimal,
}

/// What a name is to the grammar.
pub fn kind_of_name(text: &[u8]) -> Terminal
    ensures { result ≡ name_kind text.now }
{
    if text.len() < 3 || text.len() > 4 {
        return Terminal::Other;
    }
    if text == b"main".as_slice() {
        return Terminal::Main;
    }
    if text == b"ext".as_slice() {
        return Terminal::Ext;
    }
    if text == b"low".as_slice() {
        return Terminal::Low;
    }
    Terminal::Other
}

/// What a token with this text is to the grammar.
pub fn kind_of_token(sort: TokenSort, text: &[u8]) -> Terminal
    ensures { result ≡ kind_of sort text.now }
{
    match sort {
        TokenSort::Word(word) => Terminal::Word(word),
        TokenSort::Gate(GateName::MeasX | GateName::MeasZ) => Terminal::Measuring,
        TokenSort::Gate(_) => Terminal::Gate,
        TokenSort::Name => kind_of_name(text),
        TokenSort::Int(_) => Terminal::Int,
        TokenSort::Decimal(_) => Terminal::Decimal,
        TokenSort::Mark(mark) => Terminal::Mark(mark),
    }
}

/// Whether the terminal takes a token of this kind.
pub fn accepts(terminal: Terminal, kind: Terminal) -> bool
    ensures { result ≡ fits terminal kind }
{
    match terminal {
        Terminal::Word(word) => is_word(word, kind),
        Terminal::Mark(mark) => is_mark(mark, kind),
        Terminal::Name => matches!(
            kind,
            Terminal::Main | Terminal::Ext | Terminal::Low | Terminal::Other
        ),
        Terminal::Plain => matches!(kind, Terminal::Main | Terminal::Other),
        Terminal::Main => matches!(kind, Terminal::Main),
        Terminal::Ext => matches!(kind, Terminal::Ext),
        Terminal::Low => matches!(kind, Terminal::Low),
        Terminal::Other => matches!(kind, Terminal::Other),
        Terminal::Gate => matches!(kind, Terminal::Gate | Terminal::Measuring),
        Terminal::Measuring => matches!(kind, Terminal::Measuring),
        Terminal::Int => matches!(kind, Terminal::Int),
        Terminal::Decimal => matches!(kind, Terminal::Decimal),
    }
}

/// Whether one of the terminals takes a token of this kind.
pub fn any_accepts(terminals: &[Terminal], kind: Terminal) -> bool
    ensures { result ≡ list_any (λ t. fits t kind) terminals.now }
{
    terminals.iter().any(|terminal| accepts(*terminal, kind))
}

/// The first of these marks that a token of this kind is.
pub fn first_mark(marks: &[Mark], kind: Terminal) -> Option<Mark>
    ensures { result ≡ find (λ m. takes_mark m kind) marks.now }
{
    marks.iter().copied().find(|mark| is_mark(*mark, kind))
}

fn is_word(word: Word, kind: Terminal) -> bool
    ensures { result ≡ takes_word word kind }
{
    match kind {
        Terminal::Word(other) => word == other,
        _ => false,
    }
}

fn is_mark(mark: Mark, kind: Terminal) -> bool
    ensures { result ≡ takes_mark mark kind }
{
    match kind {
        Terminal::Mark(other) => mark == other,
        _ => false,
    }
}
