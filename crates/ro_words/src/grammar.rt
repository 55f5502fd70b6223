//! What `clap` is asked to read.
ghost use Rattle.ro_words.specs.Grammar.{Reads, app_of_shape, audit_app, empty_line, flag_rule, needed_rule, option_rule, place_rule, romain_app, shape_of, with_run_options};
ghost use Rattle.ro_words.specs.Commands.{audit_syntax, bench_syntax, inject_syntax, plan_syntax, run_syntax};
ghost use Rattle.std.specs.Prelude.{◌≡◌, false, codes, IfOk};
ghost use Rattle.clap.specs.Simple.{App};
ghost use Rattle.clap.specs.Words.{rule_of};

use clap::{Arg, ArgAction, Command};
use ro_settings::{NumberOption, OPTIONS};
use std::alloc::{AllocError, Global};

// The whole command line of `romain`.
pub(crate) fn grammar<'a>(alloc: Global) -> Result<Command<'a>, AllocError>
    ensures { IfOk result (Reads romain_app) }
{
    line(alloc)
        .subcommand(run_grammar(alloc)?)?
        .subcommand(plan_grammar(alloc, "plain")?)?
        .subcommand(plan_grammar(alloc, "races")?)?
        .subcommand(inject_grammar(alloc)?)?
        .subcommand(bench_grammar(alloc)?)
}

// That of an audit.
pub(crate) fn audit_line<'a>(alloc: Global) -> Result<Command<'a>, AllocError>
    ensures { IfOk result (Reads audit_app) }
{
    line(alloc).subcommand(audit_grammar(alloc)?)
}

// A command line before it has commands. No word asks for help: such a word is as bad as any other.
fn line<'a>(alloc: Global) -> Command<'a>
    ensures { Reads empty_line result }
{
    Command::new(alloc, "romain")
        .disable_help_flag(true)
        .disable_help_subcommand(true)
        .subcommand_required(true)
}

// `run EXE` and its options.
fn run_grammar<'a>(alloc: Global) -> Result<Command<'a>, AllocError>
    ensures { IfOk result (Reads (app_of_shape (shape_of (codes "run") run_syntax))) }
{
    let run = Command::new(alloc, "run")
        .arg(place(alloc, "exe"))?
        .arg(option(alloc, "mode"))?;
    run_options(alloc, run)?
        .arg(flag(alloc, "journal"))?
        .arg(flag(alloc, "record"))
}

// `audit EXE --journal F` and its options.
fn audit_grammar<'a>(alloc: Global) -> Result<Command<'a>, AllocError>
    ensures { IfOk result (Reads (app_of_shape (shape_of (codes "audit") audit_syntax))) }
{
    let audit = Command::new(alloc, "audit")
        .arg(place(alloc, "exe"))?
        .arg(needed(alloc, "journal"))?;
    run_options(alloc, audit)?.arg(flag(alloc, "json"))
}

// The command with the options of a run that have a value, but for its mode.
fn run_options<'a>(alloc: Global, command: Command<'a>) -> Result<Command<'a>, AllocError>
    ensures { (app : App) → Reads app command.entry → IfOk result (Reads (with_run_options app)) }
{
    let mut whole = command
        .arg(option(alloc, "input"))?
        .arg(option(alloc, "faults"))?;
    for option in OPTIONS {
        whole = whole.arg(number(alloc, option))?;
    }
    Ok(whole)
}

// A command `NAME EXE --plan F`, and its option.
fn plan_grammar<'a>(alloc: Global, name: &'a str) -> Result<Command<'a>, AllocError>
    ensures { IfOk result (Reads (app_of_shape (shape_of name.entry.now plan_syntax))) }
{
    Command::new(alloc, name)
        .arg(place(alloc, "exe"))?
        .arg(needed(alloc, "plan"))?
        .arg(option(alloc, "input"))
}

// `inject SEED COUNT EXE`, and its option.
fn inject_grammar<'a>(alloc: Global) -> Result<Command<'a>, AllocError>
    ensures { IfOk result (Reads (app_of_shape (shape_of (codes "inject") inject_syntax))) }
{
    Command::new(alloc, "inject")
        .arg(place(alloc, "seed"))?
        .arg(place(alloc, "count"))?
        .arg(place(alloc, "exe"))?
        .arg(option(alloc, "replica"))
}

// `bench SEED SIZE`.
fn bench_grammar<'a>(alloc: Global) -> Result<Command<'a>, AllocError>
    ensures { IfOk result (Reads (app_of_shape (shape_of (codes "bench") bench_syntax))) }
{
    Command::new(alloc, "bench")
        .arg(place(alloc, "seed"))?
        .arg(place(alloc, "size"))
}

// An option that takes a value.
fn option<'a>(alloc: Global, name: &'a str) -> Arg<'a>
    ensures rule { rule_of result ≡ option_rule name.entry.now }
    ensures local { result.global ≡ false }
{
    Arg::new(alloc, name).long(name).action(ArgAction::Set)
}

// One whose value is a number.
fn number<'a>(alloc: Global, option: &NumberOption) -> Arg<'a>
    ensures rule { rule_of result ≡ option_rule option.now.name.now }
    ensures local { result.global ≡ false }
{
    self::option(alloc, option.name)
}

// One that must be there.
fn needed<'a>(alloc: Global, name: &'a str) -> Arg<'a>
    ensures rule { rule_of result ≡ needed_rule name.entry.now }
    ensures local { result.global ≡ false }
{
    option(alloc, name).required(true)
}

// An argument that has no option's name before it.
fn place<'a>(alloc: Global, name: &'a str) -> Arg<'a>
    ensures rule { rule_of result ≡ place_rule name.entry.now }
    ensures local { result.global ≡ false }
{
    Arg::new(alloc, name).required(true)
}

// An option that takes no value.
fn flag<'a>(alloc: Global, name: &'a str) -> Arg<'a>
    ensures rule { rule_of result ≡ flag_rule name.entry.now }
    ensures local { result.global ≡ false }
{
    Arg::new(alloc, name).long(name).action(ArgAction::SetTrue)
}
