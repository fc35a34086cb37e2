//! What the arguments of the program ask for.

ghost use Rattle.std.specs.Prelude.{◌≡◌, IfOk, map, vec_items};
ghost use Rattle.rmdsum.specs.declared.arguments.Stop.TheVariants.{OutOfMemory};
ghost use Rattle.rmdsum.specs.Types.{Any};
ghost use Rattle.rmdsum.specs.Arguments.{variant_named, Answers, Reads, reading, says, long_says, letters_say, flag_says, value_says};

use crate::refusals::Misuse;
use crate::request::{Request, Settings};
use crate::switches::{Flag, Found, Parameter, Switch, around_equals, find_long, find_short};
use ripemd_files::Variant;
use std::alloc::{AllocError, Global};
use std::env::{Env, FillError};

/// What the next argument is.
#[derive(Clone, Copy)]
pub enum Next {
    // An option or an operand.
    Any,
    // An operand, also if it begins with `-`.
    Operand,
    // The value of this option, given by its long name.
    Value(Parameter),
    // The value of this option, given by this letter.
    ShortValue(Parameter, u8),
}

/// Why no more arguments are read.
#[derive(Drop)]
pub enum Stop {
    Help,
    Version,
    Misuse(Misuse),
    OutOfMemory,
}

impl From<AllocError> for Stop {
    ghost from_gives = { λ _ stop. stop ≡ OutOfMemory };

    fn from(_: AllocError) -> Stop {
        Stop::OutOfMemory
    }
}

/// The name that the program was called by.
pub fn program(env: &impl Env, alloc: Global) -> Result<Vec<u8>, AllocError> {
    match argument(env, alloc, 0)? {
        Some(name) => Ok(name),
        None => Vec::from_slice(alloc, b"rmdsum"),
    }
}

/// The arguments after the program's name.
pub fn collect(env: &impl Env, alloc: Global) -> Result<Vec<Vec<u8>>, AllocError> {
    let mut arguments = Vec::new(alloc);
    for place in 1..usize::MAX {
        match argument(env, alloc, place)? {
            Some(argument) => arguments.push(argument)?,
            None => break,
        }
    }
    Ok(arguments)
}

// The argument at `place`, if there is one.
fn argument(env: &impl Env, alloc: Global, place: usize) -> Result<Option<Vec<u8>>, AllocError> {
    for bits in 8..48u32 {
        let mut buffer = vec![in alloc; 0; 1usize << bits]?;
        match env.arg(place, buffer.as_mut_slice()) {
            Ok(length) => {
                buffer.truncate(length);
                return Ok(Some(buffer));
            }
            Err(FillError::NotPresent) => return Ok(None),
            Err(FillError::TooLong) => {}
        }
    }
    Err(AllocError)
}

/// What the arguments after the program's name ask for, by the rules of `getopt_long` and `sha256sum`. Long names may
/// be cut short. Options may follow operands, but with `operands_last` the first operand ends them.
#[tactic(auto, using(crate::proofs::Readings::asked))]
pub fn parse(
    alloc: Global,
    operands_last: bool,
    arguments: &[Vec<u8>],
) -> Result<Result<Request, Misuse>, AllocError>
    ensures { IfOk result (Answers (reading operands_last Any (map vec_items arguments.now))) }
{
    let mut settings = Settings::new(alloc);
    match read_all(alloc, operands_last, arguments, &mut settings) {
        Ok(_) => {}
        Err(Stop::Help) => return Ok(Ok(Request::Help)),
        Err(Stop::Version) => return Ok(Ok(Request::Version)),
        Err(Stop::Misuse(misuse)) => return Ok(Err(misuse)),
        Err(Stop::OutOfMemory) => return Err(AllocError),
    }
    settings.request(alloc)
}

// Adds what the arguments say.
#[tactic(auto, using(std::proofs::lemmas::Grind::common_steps, crate::proofs::Readings::then_read, crate::proofs::Readings::then_stops))]
fn read_all(
    alloc: Global,
    operands_last: bool,
    arguments: &[Vec<u8>],
    settings: &mut Settings,
) -> Result<Next, Stop>
    ensures { Reads (reading operands_last Any (map vec_items arguments.now)) settings.old settings.new result }
{
    let mut next = Next::Any;
    for argument in arguments {
        next = read(alloc, operands_last, next, argument.as_slice(), settings)?;
    }
    match next {
        Next::Value(parameter) => Err(Stop::Misuse(Misuse::MissingValue(parameter))),
        Next::ShortValue(_, letter) => Err(Stop::Misuse(Misuse::MissingShortValue(letter))),
        Next::Any | Next::Operand => Ok(next),
    }
}

// Adds what an argument says, and returns what the next one is.
fn read(
    alloc: Global,
    operands_last: bool,
    next: Next,
    argument: &[u8],
    settings: &mut Settings,
) -> Result<Next, Stop>
    ensures { Reads (says operands_last next argument.now) settings.old settings.new result }
{
    match (next, argument) {
        (Next::Value(parameter) | Next::ShortValue(parameter, _), _) => {
            add_parameter(alloc, parameter, argument, settings)
        }
        (Next::Any, [b'-', b'-']) => Ok(Next::Operand),
        (Next::Any, [b'-', b'-', text @ ..]) => read_long(alloc, text, settings),
        (Next::Any, [b'-', letters @ ..]) if !letters.is_empty() => {
            read_short(alloc, letters, settings)
        }
        _ => {
            let name = Vec::from_slice(alloc, argument)?;
            settings.names.push(name).map_err(|_| Stop::OutOfMemory)?;
            Ok(if operands_last { Next::Operand } else { next })
        }
    }
}

// `text` follows `--`.
fn read_long(alloc: Global, text: &[u8], settings: &mut Settings) -> Result<Next, Stop>
    ensures { Reads (long_says text.now) settings.old settings.new result }
{
    let (name, value) = around_equals(text);
    match find_long(name) {
        Found::Nothing => Err(Stop::Misuse(Misuse::UnknownLong(Vec::from_slice(alloc, text)?))),
        Found::Several => Err(Stop::Misuse(Misuse::Ambiguous(Vec::from_slice(alloc, text)?))),
        Found::One(Switch::Flag(flag)) => match value {
            None => add_flag(flag, settings),
            Some(_) => Err(Stop::Misuse(Misuse::UnwantedValue(flag))),
        },
        Found::One(Switch::Parameter(parameter)) => match value {
            None => Ok(Next::Value(parameter)),
            Some(value) => add_parameter(alloc, parameter, value, settings),
        },
    }
}

// `letters` follow the hyphen. A value follows its letter, or is the next argument.
#[tactic(auto, using(std::proofs::lemmas::Grind::common_steps, crate::proofs::Readings::then_read))]
fn read_short(alloc: Global, letters: &[u8], settings: &mut Settings) -> Result<Next, Stop>
    ensures { Reads (letters_say letters.now) settings.old settings.new result }
{
    for (place, letter) in letters.iter().enumerate() {
        match find_short(*letter) {
            None => return Err(Stop::Misuse(Misuse::UnknownShort(*letter))),
            Some(Switch::Flag(flag)) => {
                add_flag(flag, settings)?;
            }
            Some(Switch::Parameter(parameter)) => {
                let value = &letters[place + 1..];
                if value.is_empty() {
                    return Ok(Next::ShortValue(parameter, *letter));
                }
                return add_parameter(alloc, parameter, value, settings);
            }
        }
    }
    Ok(Next::Any)
}

// `--help` and `--version` end the reading.
fn add_flag(flag: Flag, settings: &mut Settings) -> Result<Next, Stop>
    ensures { Reads (flag_says flag) settings.old settings.new result }
{
    match flag {
        Flag::Help => return Err(Stop::Help),
        Flag::Version => return Err(Stop::Version),
        Flag::Check => settings.check = true,
        Flag::IgnoreMissing => settings.ignore_missing = true,
        Flag::Quiet | Flag::Status | Flag::Warn => settings.telling = Some(flag),
        Flag::Strict => settings.strict = true,
        Flag::Tag => {
            settings.tag = true;
            settings.mode = Some(Flag::Binary);
        }
        Flag::Zero => settings.zero = true,
        Flag::Binary | Flag::Text => settings.mode = Some(flag),
        Flag::Progress => settings.progress = true,
    }
    Ok(Next::Any)
}

fn add_parameter(
    alloc: Global,
    parameter: Parameter,
    value: &[u8],
    settings: &mut Settings,
) -> Result<Next, Stop>
    ensures { Reads (value_says parameter value.now) settings.old settings.new result }
{
    match parameter {
        Parameter::Algorithm => match find_variant(value) {
            Some(variant) => settings.variant = Some(variant),
            None => {
                let name = Vec::from_slice(alloc, value)?;
                return Err(Stop::Misuse(Misuse::UnknownVariant(name)));
            }
        },
        Parameter::FilesFrom => settings.names_in = Some(Vec::from_slice(alloc, value)?),
    }
    Ok(Next::Any)
}

// The variant of this name.
fn find_variant(name: &[u8]) -> Option<Variant>
    ensures { result ≡ variant_named name.now }
{
    match name {
        b"128" => Some(Variant::R128),
        b"160" => Some(Variant::R160),
        b"256" => Some(Variant::R256),
        b"320" => Some(Variant::R320),
        _ => None,
    }
}
