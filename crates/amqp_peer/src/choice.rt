//! Options as rows of tables, and the commands that have them.
//!
//! A row becomes clap's option in one place, `argument`, and a command takes all of its options at once: a chain of calls with a `?` behind each,
//! through which a wide command is handed, costs more to prove the longer it is.

use clap::{Arg, ArgAction, Command, value_parser};
use std::alloc::{AllocError, Global};

/// An option of a command.
#[derive(Clone, Copy)]
pub struct Choice {
    /// Its name, which stands behind `--`.
    pub name: &'static str,
    /// What the help says of it.
    pub help: &'static str,
    pub value: Value,
    /// The value if it is not given.
    pub usual: Option<&'static str>,
    /// It has to be there.
    pub is_required: bool,
    /// The option without which it has to be there, and beside which it does not stand.
    pub unless: Option<&'static str>,
    /// Its value stands by itself, without the name.
    pub is_bare: bool,
    /// The option without which it does not stand.
    pub needs: Option<&'static str>,
    /// The option beside which it does not stand.
    pub excludes: Option<&'static str>,
    /// The group that it is of: no two options of a group stand beside each other.
    pub group: Option<&'static str>,
}

/// What stands behind an option, and the name of that in the help.
#[derive(Clone, Copy)]
pub enum Value {
    /// Nothing: the option is there, or it is not.
    Nothing,
    Text(&'static str),
    /// A number, the least one and the greatest.
    Number(&'static str, u32, u32),
}

/// An option without a value.
pub const FLAG: Choice = Choice {
    name: "",
    help: "",
    value: Value::Nothing,
    usual: None,
    is_required: false,
    unless: None,
    is_bare: false,
    needs: None,
    excludes: None,
    group: None,
};

/// An option with a text.
pub const TEXT: Choice = Choice {
    value: Value::Text("TEXT"),
    ..FLAG
};

/// An option with a number of 32 bits.
pub const NUMBER: Choice = Choice {
    value: Value::Number("N", 0, u32::MAX),
    ..FLAG
};

/// A row of a table: the option that it is but for its name, its help and what else is given.
macro_rules! choice {
    ($base:ident, $name:literal: $help:literal $(, $field:ident: $value:expr)*) => {
        Choice { name: $name, help: $help, $($field: $value,)* ..$base }
    };
}

pub(crate) use choice;

/// Makes a command with options, which its help lists in their order.
pub fn command<'a>(
    alloc: Global,
    name: &'static str,
    about: &'static str,
    choices: &[&[Choice]],
) -> Result<Command<'a>, AllocError> {
    let arguments = arguments(alloc, choices)?;
    Command::new(alloc, name).about(about).args(arguments)
}

/// Adds the command to these. The lists of commands are made by calls of this: each has one way out, and a `push` of what may be refused has two.
pub fn put<'a>(
    commands: &mut Vec<Command<'a>>,
    made: Result<Command<'a>, AllocError>,
) -> Result<(), AllocError> {
    commands.push(made?)?;
    Ok(())
}

fn arguments<'a>(alloc: Global, choices: &[&[Choice]]) -> Result<Vec<Arg<'a>>, AllocError> {
    let mut arguments = Vec::new(alloc);
    for some in choices {
        add(&mut arguments, some)?;
    }
    Ok(arguments)
}

fn add<'a>(arguments: &mut Vec<Arg<'a>>, choices: &[Choice]) -> Result<(), AllocError> {
    for choice in choices {
        arguments.push(argument(*arguments.allocator(), choice)?)?;
    }
    Ok(())
}

/// The option as clap has it.
fn argument<'a>(alloc: Global, choice: &Choice) -> Result<Arg<'a>, AllocError> {
    let argument = requiring(alone(alloc, choice), choice.needs)?;
    let argument = required_unless(argument, choice.unless)?;
    let argument = grouped(argument, choice.group)?;
    match choice.excludes {
        Some(other) => argument.conflicts_with(other),
        None => Ok(argument),
    }
}

fn required_unless<'a>(
    argument: Arg<'a>,
    other: Option<&'static str>,
) -> Result<Arg<'a>, AllocError> {
    match other {
        Some(other) => argument
            .required_unless_present(other)?
            .conflicts_with(other),
        None => Ok(argument),
    }
}

fn requiring<'a>(argument: Arg<'a>, other: Option<&'static str>) -> Result<Arg<'a>, AllocError> {
    match other {
        Some(other) => argument.requires_arg(other),
        None => Ok(argument),
    }
}

fn grouped<'a>(argument: Arg<'a>, group: Option<&'static str>) -> Result<Arg<'a>, AllocError> {
    match group {
        Some(group) => argument.group(group),
        None => Ok(argument),
    }
}

/// The option, whatever stands beside it.
fn alone<'a>(alloc: Global, choice: &Choice) -> Arg<'a> {
    let argument = with_value(named(alloc, choice), choice.value).required(choice.is_required);
    match choice.usual {
        Some(usual) => argument.default_value(usual),
        None => argument,
    }
}

fn named<'a>(alloc: Global, choice: &Choice) -> Arg<'a> {
    let argument = Arg::new(alloc, choice.name).help(choice.help);
    if choice.is_bare {
        argument
    } else {
        argument.long(choice.name)
    }
}

fn with_value<'a>(argument: Arg<'a>, value: Value) -> Arg<'a> {
    match value {
        Value::Nothing => argument.action(ArgAction::SetTrue),
        Value::Text(name) => argument.value_name(name),
        Value::Number(name, least, most) => argument.value_name(name).value_parser(value_parser!(
            u32
        ).range(i64::from(least)..=i64::from(most))),
    }
}
