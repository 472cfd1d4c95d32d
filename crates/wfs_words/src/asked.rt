//! What the words ask for, before a text is kept.
ghost use Rattle.std.specs.Prelude.{◌≡◌, option_map, map, string_bytes};
ghost use Rattle.wfs_words.specs.Words.{view_asked, served, in_directory, drill_of, serve_of, command_of, command_for, asked_of, limit_of, first_word, only_word, serve_with, view_texts};

use crate::number::number_in;
use crate::options::{Found, is_plain, is_same, texts_of};

/// A command, with its texts as they stand in the words.
#[derive(Clone, Copy, Debug)]
pub(crate) enum Task<'a> {
    Talk,
    Serve {
        listen: &'a str,
        workers: u32,
        connections: Option<u32>,
    },
    Check,
    Compact,
    Drill(u32),
}

/// A command and its directory.
#[derive(Clone, Copy, Debug)]
pub(crate) struct Asked<'a> {
    pub task: Task<'a>,
    pub directory: &'a str,
}

/// What the words ask for.
#[tactic(auto, unfolding(crate::specs::Words::asked_of))]
pub(crate) fn asked_of<'a>(words: &'a [String]) -> Option<Asked<'a>>
    ensures { option_map view_asked result ≡ asked_of (map string_bytes words.entry.now) }
{
    match first_word(words) {
        Some((word, more)) => command_of(word, more),
        None => None,
    }
}

/// What this command's words ask for.
#[tactic(auto, unfolding(crate::specs::Words::command_of))]
fn command_of<'a>(word: &str, words: &'a [String]) -> Option<Asked<'a>>
    ensures { option_map view_asked result ≡ command_of word.now
        (map string_bytes words.entry.now) }
{
    if is_same(word, "talk") {
        in_directory(Task::Talk, words)
    } else if is_same(word, "check") {
        in_directory(Task::Check, words)
    } else if is_same(word, "compact") {
        in_directory(Task::Compact, words)
    } else if is_same(word, "drill") {
        drill_of(words)
    } else if is_same(word, "serve") {
        serve_of(words)
    } else {
        None
    }
}

/// A command whose one word is its directory.
#[tactic(auto, unfolding(crate::specs::Words::in_directory))]
fn in_directory<'a>(task: Task<'a>, words: &'a [String]) -> Option<Asked<'a>>
    ensures { option_map view_asked result ≡ in_directory (command_for task.entry)
        (map string_bytes words.entry.now) }
{
    match only_word(words) {
        Some(directory) => {
            if is_plain(directory) {
                Some(Asked { task, directory })
            } else {
                None
            }
        }
        None => None,
    }
}

/// A drill of so many requests, and its directory.
#[tactic(auto, unfolding(crate::specs::Words::drill_of))]
fn drill_of<'a>(words: &'a [String]) -> Option<Asked<'a>>
    ensures { option_map view_asked result ≡ drill_of (map string_bytes words.entry.now) }
{
    match first_word(words) {
        Some((count, more)) => match number_in(1, 100000, count) {
            Some(requests) => in_directory(Task::Drill(requests), more),
            None => None,
        },
        None => None,
    }
}

/// The options of `serve`, and its directory.
#[tactic(auto, unfolding(crate::specs::Words::serve_of))]
fn serve_of<'a>(words: &'a [String]) -> Option<Asked<'a>>
    ensures { option_map view_asked result ≡ serve_of (map string_bytes words.entry.now) }
{
    match texts_of(words) {
        Some(found) => served(found),
        None => None,
    }
}

/// The command that the texts of `serve` give.
#[tactic(auto, unfolding(crate::specs::Words::served))]
pub(crate) fn served<'a>(found: Found<'a>) -> Option<Asked<'a>>
    ensures { option_map view_asked result ≡ served (view_texts found.entry) }
{
    match (found.listen, found.workers, found.directory) {
        (Some(listen), Some(count), Some(directory)) => {
            serve_with(listen, count, found.connections, directory)
        }
        _ => None,
    }
}

/// The command that these texts give.
#[tactic(auto, unfolding(crate::specs::Words::serve_with))]
fn serve_with<'a>(
    listen: &'a str,
    count: &str,
    limit: Option<&str>,
    directory: &'a str,
) -> Option<Asked<'a>>
    ensures { option_map view_asked result ≡ serve_with listen.now count.now
        (option_map (λ t. t.now) limit.entry) directory.now }
{
    if listen.is_empty() {
        return None;
    }
    match number_in(1, 16, count) {
        Some(workers) => match limit_of(limit) {
            Some(connections) => Some(Asked {
                task: Task::Serve {
                    listen,
                    workers,
                    connections,
                },
                directory,
            }),
            None => None,
        },
        None => None,
    }
}

/// The limit that was given, if one was.
#[tactic(auto, unfolding(crate::specs::Words::limit_of))]
fn limit_of(text: Option<&str>) -> Option<Option<u32>>
    ensures { result ≡ limit_of (option_map (λ t. t.now) text.entry) }
{
    match text {
        None => Some(None),
        Some(text) => match number_in(1, 1000000, text) {
            Some(number) => Some(Some(number)),
            None => None,
        },
    }
}

/// The first word, and the words behind it.
#[tactic(auto, using(crate::proofs::Firsts::first_some, crate::proofs::Firsts::first_none))]
fn first_word<'a>(words: &'a [String]) -> Option<(&'a str, &'a [String])>
    ensures { option_map (λ p. (p.0.now, map string_bytes p.1.now)) result
        ≡ first_word (map string_bytes words.entry.now) }
{
    match words.split_first() {
        Some((word, more)) => Some((word.as_str(), more)),
        None => None,
    }
}

/// The word, where there is just one.
#[tactic(auto, unfolding(crate::specs::Words::only_word), using(crate::proofs::Firsts::length_same))]
fn only_word<'a>(words: &'a [String]) -> Option<&'a str>
    ensures { option_map (λ w. w.now) result ≡ only_word (map string_bytes words.entry.now) }
{
    match first_word(words) {
        Some((word, more)) => { if more.is_empty() { Some(word) } else { None } }
        None => None,
    }
}
