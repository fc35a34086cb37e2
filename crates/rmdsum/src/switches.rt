//! The options by their names.

ghost use Rattle.std.specs.Prelude.{◌≡◌, option_copied, filter};
ghost use Rattle.rmdsum.specs.Options.{flag_name, parameter_name, long_name, by_letter, by_name, begins, alone};
ghost use Rattle.rmdsum.specs.Arguments.{before_equals, after_equals};

/// An option without a value.
#[derive(Clone, Copy, PartialEq, Eq, Debug)]
pub enum Flag {
    Binary,
    Check,
    Help,
    IgnoreMissing,
    Progress,
    Quiet,
    Status,
    Strict,
    Tag,
    Text,
    Version,
    Warn,
    Zero,
}

/// An option with a value.
#[derive(Clone, Copy, PartialEq, Eq, Debug)]
pub enum Parameter {
    Algorithm,
    FilesFrom,
}

/// An option.
#[derive(Clone, Copy, PartialEq, Eq, Debug)]
pub enum Switch {
    Flag(Flag),
    Parameter(Parameter),
}

/// All options, as the message about an ambiguous name orders them.
pub const SWITCHES: [Switch; 15] = [
    Switch::Flag(Flag::Check),
    Switch::Flag(Flag::IgnoreMissing),
    Switch::Flag(Flag::Quiet),
    Switch::Flag(Flag::Status),
    Switch::Flag(Flag::Warn),
    Switch::Flag(Flag::Strict),
    Switch::Flag(Flag::Tag),
    Switch::Flag(Flag::Zero),
    Switch::Parameter(Parameter::Algorithm),
    Switch::Flag(Flag::Binary),
    Switch::Flag(Flag::Text),
    Switch::Parameter(Parameter::FilesFrom),
    Switch::Flag(Flag::Progress),
    Switch::Flag(Flag::Help),
    Switch::Flag(Flag::Version),
];

/// Which options a name stands for.
#[derive(Clone, Copy)]
pub enum Found {
    Nothing,
    One(Switch),
    Several,
}

impl Flag {
    /// What stands after `--`.
    pub fn long_name(self) -> &'static str
        ensures { result.now ≡ flag_name self }
    {
        match self {
            Flag::Binary => "binary",
            Flag::Check => "check",
            Flag::Help => "help",
            Flag::IgnoreMissing => "ignore-missing",
            Flag::Progress => "progress",
            Flag::Quiet => "quiet",
            Flag::Status => "status",
            Flag::Strict => "strict",
            Flag::Tag => "tag",
            Flag::Text => "text",
            Flag::Version => "version",
            Flag::Warn => "warn",
            Flag::Zero => "zero",
        }
    }
}

impl Parameter {
    /// What stands after `--`.
    pub fn long_name(self) -> &'static str
        ensures { result.now ≡ parameter_name self }
    {
        match self {
            Parameter::Algorithm => "algorithm",
            Parameter::FilesFrom => "files0-from",
        }
    }
}

impl Switch {
    /// What stands after `--`.
    pub fn long_name(self) -> &'static str
        ensures { result.now ≡ long_name self }
    {
        match self {
            Switch::Flag(flag) => flag.long_name(),
            Switch::Parameter(parameter) => parameter.long_name(),
        }
    }
}

/// The option of a letter.
pub fn find_short(letter: u8) -> Option<Switch>
    ensures { result ≡ by_letter letter }
{
    match letter {
        b'a' => Some(Switch::Parameter(Parameter::Algorithm)),
        b'b' => Some(Switch::Flag(Flag::Binary)),
        b'c' => Some(Switch::Flag(Flag::Check)),
        b't' => Some(Switch::Flag(Flag::Text)),
        b'w' => Some(Switch::Flag(Flag::Warn)),
        b'z' => Some(Switch::Flag(Flag::Zero)),
        _ => None,
    }
}

/// The options that begin so: a name may be cut short.
#[tactic(auto, unfolding(crate::specs::Options::by_name))]
pub fn find_long(name: &[u8]) -> Found
    ensures { result ≡ by_name name.now }
{
    find_begun(name, &SWITCHES)
}

fn find_begun(name: &[u8], switches: &[Switch]) -> Found
    ensures { result ≡ alone (filter (begins name.now) switches.now) }
{
    let mut found = Found::Nothing;
    for switch in switches {
        if !switch.long_name().as_bytes().starts_with(name) {
            continue;
        }
        found = match found {
            Found::Nothing => Found::One(*switch),
            Found::One(_) | Found::Several => Found::Several,
        };
    }
    found
}

/// What stands before the first `=`, and after it.
pub fn around_equals(text: &[u8]) -> (&[u8], Option<&[u8]>)
    ensures before { result.0.now ≡ before_equals text.now }
    ensures after { option_copied result.1 ≡ after_equals text.now }
{
    for (place, byte) in text.iter().enumerate() {
        if *byte == b'=' {
            return (&text[..place], Some(&text[place + 1..]));
        }
    }
    (text, None)
}
