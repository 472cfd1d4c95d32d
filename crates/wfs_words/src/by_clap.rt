//! The words as `clap` reads them.
ghost use Rattle.std.specs.Prelude.{◌≡◌, ◌<◌, IfOk, codes, drop, length, map, option_map, string_bytes};
ghost use Rattle.std.specs.List.{list_all};
ghost use Rattle.clap.specs.Words.{app_of};
ghost use Rattle.wfs_words.specs.Words.{asked_of, is_fit, is_serve, serve_of, view_asked, view_texts};
ghost use Rattle.wfs_words.specs.ByClap.{Gives, clap_texts, serve_app};

use crate::asked::{Asked, asked_of, served};
use crate::command::WordFault;
use crate::options::{Found, is_fit};
use clap::error::ErrorKind;
use clap::{Arg, Command};
use std::alloc::{AllocError, Global};

/// What the words ask for.
pub(crate) fn asked_by_clap<'a>(alloc: Global, words: &'a [String]) -> Result<Asked<'a>, WordFault>
    ensures { Gives view_asked result (asked_of (map string_bytes words.entry.now)) }
{
    if is_serve(words) {
        return serve_by_clap(alloc, words);
    }
    match asked_of(words) {
        Some(asked) => Ok(asked),
        None => Err(WordFault::Refused),
    }
}

/// The first word is `serve`.
fn is_serve(words: &[String]) -> bool
    ensures { result ≡ is_serve (map string_bytes words.now) }
{
    match words {
        [] => false,
        [word, ..] => word.as_str() == "serve",
    }
}

/// The command of the words of `serve`, its own word first.
#[tactic(auto, using(crate::proofs::Fits::refused_unfit, crate::proofs::Fits::fit_some, crate::proofs::Fits::fit_none, crate::proofs::Fits::fit_refused))]
fn serve_by_clap<'a>(alloc: Global, words: &'a [String]) -> Result<Asked<'a>, WordFault>
    requires { 0 < length words.now }
    ensures { Gives view_asked result (serve_of (drop 1 (map string_bytes words.entry.now))) }
{
    if !are_fit(&words[1..]) {
        return Err(WordFault::Refused);
    }
    match texts_by_clap(alloc, words) {
        Ok(found) => match served(found) {
            Some(asked) => Ok(asked),
            None => Err(WordFault::Refused),
        },
        Err(fault) => Err(fault),
    }
}

/// No word is empty, or begins with a hyphen and is no long option: `clap` takes `-` as a place, and ends options at `--`.
fn are_fit(words: &[String]) -> bool
    ensures { result ≡ list_all (λ w. is_fit (string_bytes w)) words.now }
{
    words.iter().all(|w| is_fit(w.as_str()))
}

/// The options of `serve`, each at most once, and its directory.
fn serve_usage<'a>(alloc: Global) -> Result<Command<'a>, AllocError>
    ensures { IfOk result (λ c. app_of c ≡ serve_app) }
{
    let listen = Arg::new(alloc, "listen").long("listen").required(true);
    let workers = Arg::new(alloc, "workers").long("workers").required(true);
    let connections = Arg::new(alloc, "connections").long("connections");
    let dir = Arg::new(alloc, "dir").required(true);
    let bare = Command::new(alloc, "serve").disable_help_flag(true);
    let first = bare.arg(listen)?;
    let second = first.arg(workers)?;
    let third = second.arg(connections)?;
    third.arg(dir)
}

/// The texts that the words of `serve` give, its own word first.
fn texts_by_clap<'a>(alloc: Global, words: &'a [String]) -> Result<Found<'a>, WordFault>
    ensures { Gives view_texts result (clap_texts (map string_bytes words.entry.now)) }
{
    let usage = serve_usage(alloc)?;
    match usage.try_get_matches_from(words) {
        Ok(matches) => Ok(Found {
            listen: matches.get_str("listen"),
            workers: matches.get_str("workers"),
            connections: matches.get_str("connections"),
            directory: matches.get_str("dir"),
        }),
        Err(error) => match error.kind() {
            ErrorKind::OutOfMemory => Err(WordFault::OutOfMemory),
            _ => Err(WordFault::Refused),
        },
    }
}
