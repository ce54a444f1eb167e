//! The parts of a command as clap reads it.
ghost use Rattle.std.specs.Prelude.{◌≡◌, ◌≤◌, [], None, false};
ghost use Rattle.clap.specs.Facts.{least_values};
ghost use Rattle.clap.specs.Words.{IsPlainArg, app_of, args_of, groups_of, rule_of};
ghost use Rattle.clap.specs.declared.builder.command.Command.TheViews.{out-Command as fields_of};
ghost use Rattle.fmb_words.specs.Commands.{any_values as any_rule, bare_app, flag_option as flag_rule, one_value as one_rule, value_option as option_rule};

use clap::{Arg, ArgAction, Command};
use std::alloc::Global;

/// A command without arguments, `--help` and `--version`.
pub(crate) fn bare<'a>(alloc: Global, name: &'a str) -> Command<'a>
    ensures app { app_of result ≡ bare_app name.entry.now }
    ensures empty { (args_of result ≡ []) × (groups_of result ≡ []) }
    ensures plain { ((fields_of result).has_globals ≡ false) × ((fields_of result).subcommand_negates_reqs ≡ false) }
{
    Command::new(alloc, name)
        .disable_help_flag(true)
        .disable_version_flag(true)
}

/// An argument without a name, which must be there, with one value.
pub(crate) fn one_value<'a>(alloc: Global, id: &'a str) -> Arg<'a>
    ensures rule { rule_of result ≡ one_rule id.entry.now }
    ensures local { result.global ≡ false }
    ensures plain { IsPlainArg result × (result.val_delim ≡ None) × (result.num_vals ≡ None) }
    ensures id { result.id ≡ id.entry }
    ensures least { 1 ≤ least_values result }
{
    Arg::new(alloc, id).required(true).action(ArgAction::Set)
}

/// An argument without a name, with no or more values.
pub(crate) fn any_values<'a>(alloc: Global, id: &'a str) -> Arg<'a>
    ensures rule { rule_of result ≡ any_rule id.entry.now }
    ensures local { result.global ≡ false }
{
    Arg::new(alloc, id).action(ArgAction::Append).num_args(0..)
}

/// `--name`, which may be there.
pub(crate) fn flag_option<'a>(alloc: Global, name: &'a str) -> Arg<'a>
    ensures rule { rule_of result ≡ flag_rule name.entry.now }
    ensures local { result.global ≡ false }
{
    Arg::new(alloc, name).long(name).action(ArgAction::SetTrue)
}

/// `--name VALUE`, which must be there.
pub(crate) fn value_option<'a>(alloc: Global, name: &'a str) -> Arg<'a>
    ensures rule { rule_of result ≡ option_rule name.entry.now }
    ensures local { result.global ≡ false }
{
    one_value(alloc, name).long(name)
}
