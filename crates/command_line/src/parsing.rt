//! What `clap` is told, which tells the words of a command line apart.
ghost use Rattle.std.specs.Prelude.{◌≡◌, ◌++◌, ◌∷◌, [], IfOk, OnOk, map};
ghost use Rattle.clap.specs.Words.{app_of, shape_of};
ghost use Rattle.command_line.specs.Views.{told_shape, told_words};
ghost use Rattle.command_line.specs.Parser.{command_app, shards_app};

use clap::{Arg, Command};
use std::alloc::{AllocError, Global};

/// A command as the parser is told it: its name, and its arguments, each with how many words it
/// takes at most. One that takes 0 is one word that may be left out.
type Form<'a> = (&'a str, &'a [(&'a str, usize)]);

/// The program's commands.
static COMMANDS: [Form<'static>; 12] = [
    (
        "once",
        &[
            ("key", 1),
            ("value", 1),
            ("e1", 1),
            ("l1", 1),
            ("e2", 1),
            ("l2", 1),
        ],
    ),
    ("format", &[("file", 1)]),
    ("play", &[("file", 1)]),
    ("inspect", &[("lines", 1), ("logs", 16)]),
    ("drive", &[("file", 1)]),
    ("dump", &[("file", 1)]),
    ("history", &[("dir", 1), ("key", 1)]),
    ("get", &[("dir", 1), ("key", 1), ("at", 0)]),
    ("put", &[("dir", 1), ("key", 1), ("value", 1)]),
    ("stats", &[("logs", 16)]),
    ("migrate", &[("old", 1), ("new", 1)]),
    ("compact", &[("old", 1), ("new", 1)]),
];

/// The program with its commands.
pub fn shards<'a>(alloc: Global) -> Result<Command<'a>, AllocError>
    ensures { IfOk result (λ c. app_of c ≡ shards_app) }
{
    let mut commands = Vec::new(alloc);
    add_commands(alloc, &mut commands, &COMMANDS)?;
    Command::new(alloc, "shards")
        .no_binary_name(true)
        .disable_help_subcommand(true)
        .subcommand_required(true)
        .subcommands(commands)
}

// Adds commands to others.
fn add_commands<'a>(
    alloc: Global,
    commands: &mut Vec<Command<'a>>,
    forms: &[Form<'a>],
) -> Result<(), AllocError>
    ensures { OnOk result (map shape_of commands.new.items
        ≡ map shape_of commands.old.items ++ map told_shape forms.now) }
{
    for (name, words) in forms {
        add_command(alloc, commands, *name, *words)?;
    }
    Ok(())
}

// Adds a command to others. Each of its arguments takes a word at least, and so many at most; one that takes 0 may be left out.
fn add_command<'a>(
    alloc: Global,
    commands: &mut Vec<Command<'a>>,
    name: &'a str,
    words: &[(&'a str, usize)],
) -> Result<(), AllocError>
    ensures { OnOk result (map shape_of commands.new.items ≡ map shape_of commands.old.items
        ++ (command_app name.entry.now (told_words words.now)).top ∷ []) }
{
    let mut command = Command::new(alloc, name);
    for (id, most) in words {
        command = command.arg(Arg::new(alloc, *id).required(*most > 0).num_args(1..=*most))?;
    }
    commands.push(command)?;
    Ok(())
}
