//! The modes of the program, and their options.
ghost use Rattle.std.specs.Prelude.{◌≡◌, find};
ghost use Rattle.std.specs.Str.{bytes_eq};
ghost use Rattle.sc_words.specs.Words.{mode_text, mode_named, options_of, operand_count, option_text, is_flag};

/// What the program does, by the first word.
#[derive(Clone, Copy, Debug, PartialEq, Eq)]
pub(crate) enum Mode {
    Hier,
    Flat,
    Count,
    Schedule,
    Expand,
    Check,
    Drill,
    Coarse,
    Open,
    Reopen,
    Cancel,
}

/// An option, by its long name.
#[derive(Clone, Copy, Debug, PartialEq, Eq)]
pub(crate) enum OptionName {
    Keep,
    Limit,
    Kinds,
    Burst,
    Window,
    Reach,
    Regions,
    Width,
    Order,
    Times,
}

impl Mode {
    pub(crate) const ALL: [Mode; 11] = [
        Mode::Hier,
        Mode::Flat,
        Mode::Count,
        Mode::Schedule,
        Mode::Expand,
        Mode::Check,
        Mode::Drill,
        Mode::Coarse,
        Mode::Open,
        Mode::Reopen,
        Mode::Cancel,
    ];

    /// The word of the mode.
    pub(crate) fn text(self) -> &'static str
        ensures { result.now ≡ mode_text self }
    {
        match self {
            Mode::Hier => "hier",
            Mode::Flat => "flat",
            Mode::Count => "count",
            Mode::Schedule => "schedule",
            Mode::Expand => "expand",
            Mode::Check => "check",
            Mode::Drill => "drill",
            Mode::Coarse => "coarse",
            Mode::Open => "open",
            Mode::Reopen => "reopen",
            Mode::Cancel => "cancel",
        }
    }

    /// The options that the mode knows.
    pub(crate) fn options(self) -> &'static [OptionName]
        ensures { result.now ≡ options_of self }
    {
        match self {
            Mode::Hier | Mode::Open => &[OptionName::Keep],
            Mode::Flat => &[
                OptionName::Keep,
                OptionName::Limit,
                OptionName::Kinds,
                OptionName::Burst,
                OptionName::Window,
                OptionName::Reach,
            ],
            Mode::Count => &[OptionName::Times, OptionName::Keep],
            Mode::Schedule => &[
                OptionName::Regions,
                OptionName::Width,
                OptionName::Order,
                OptionName::Times,
                OptionName::Keep,
            ],
            Mode::Expand => &[OptionName::Limit],
            Mode::Check | Mode::Drill | Mode::Reopen => &[],
            Mode::Coarse => &[
                OptionName::Regions,
                OptionName::Width,
                OptionName::Order,
                OptionName::Keep,
            ],
            Mode::Cancel => &[
                OptionName::Keep,
                OptionName::Kinds,
                OptionName::Burst,
                OptionName::Window,
                OptionName::Reach,
            ],
        }
    }

    /// How many operands the mode has.
    pub(crate) fn operand_count(self) -> usize
        ensures { result ≡ operand_count self }
    {
        match self {
            Mode::Check => 2,
            _ => 1,
        }
    }
}

impl OptionName {
    /// What stands after the two hyphens.
    pub(crate) fn text(self) -> &'static str
        ensures { result.now ≡ option_text self }
    {
        match self {
            OptionName::Keep => "keep",
            OptionName::Limit => "limit",
            OptionName::Kinds => "kinds",
            OptionName::Burst => "burst",
            OptionName::Window => "window",
            OptionName::Reach => "reach",
            OptionName::Regions => "regions",
            OptionName::Width => "width",
            OptionName::Order => "order",
            OptionName::Times => "times",
        }
    }

    /// Whether the option has no value.
    pub(crate) fn is_flag(self) -> bool
        ensures { result ≡ is_flag self }
    {
        match self {
            OptionName::Keep
            | OptionName::Kinds
            | OptionName::Burst
            | OptionName::Window
            | OptionName::Reach => true,
            OptionName::Limit
            | OptionName::Regions
            | OptionName::Width
            | OptionName::Order
            | OptionName::Times => false,
        }
    }
}

/// The first of some modes that has the word.
fn first_named(mut modes: &[Mode], word: &str) -> Option<Mode>
    ensures { result ≡ find (λ m. bytes_eq (mode_text m) word.now) modes.entry.now }
{
    while let [mode, rest @ ..] = modes {
        if mode.text() == word {
            return Some(*mode);
        }
        modes = rest;
    }
    None
}

/// The mode that the word names.
pub(crate) fn mode_named(word: &str) -> Option<Mode>
    ensures { result ≡ mode_named word.now }
{
    first_named(&Mode::ALL, word)
}
