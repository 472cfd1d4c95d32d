//! The options of `serve`, read without memory.
ghost use Rattle.std.specs.Prelude.{◌≡◌, bytes_eq, option_map, map, string_bytes};
ghost use Rattle.std.specs.List.{list_all};
ghost use Rattle.clap.specs.Lexer.{strip_byte, name_and_value, long_of};
ghost use Rattle.wfs_words.specs.Words.{is_plain, is_fit, name_of, Texts, get, with_text, add, open_word, value_word, step, texts_of, no_texts, view_texts, view_state};

/// An option of `serve`, or its directory.
#[derive(Clone, Copy, Debug, PartialEq, Eq)]
pub(crate) enum Name {
    Listen,
    Workers,
    Connections,
    Directory,
}

/// The texts that were given.
#[derive(Clone, Copy, Debug)]
pub(crate) struct Found<'a> {
    pub listen: Option<&'a str>,
    pub workers: Option<&'a str>,
    pub connections: Option<&'a str>,
    pub directory: Option<&'a str>,
}

impl<'a> Found<'a> {
    fn nothing() -> Found<'a>
        ensures { view_texts result ≡ no_texts }
    {
        Found {
            listen: None,
            workers: None,
            connections: None,
            directory: None,
        }
    }

    fn get(self, name: Name) -> Option<&'a str>
        ensures { option_map (λ t. t.now) result ≡ get name (view_texts self.entry) }
    {
        match name {
            Name::Listen => self.listen,
            Name::Workers => self.workers,
            Name::Connections => self.connections,
            Name::Directory => self.directory,
        }
    }

    fn with_text(self, name: Name, text: &'a str) -> Found<'a>
        ensures { view_texts result ≡ with_text name text.now (view_texts self.entry) }
    {
        let mut more = self;
        match name {
            Name::Listen => more.listen = Some(text),
            Name::Workers => more.workers = Some(text),
            Name::Connections => more.connections = Some(text),
            Name::Directory => more.directory = Some(text),
        }
        more
    }
}

/// What was read so far: the option that waits for its value, if one does, and the texts.
#[derive(Clone, Copy, Debug)]
struct State<'a> {
    waiting: Option<Name>,
    found: Found<'a>,
}

/// The texts that the words behind `serve` give.
#[tactic(auto, unfolding(crate::specs::Words::texts_of, crate::specs::Words::read))]
pub(crate) fn texts_of<'a>(words: &'a [String]) -> Option<Found<'a>>
    ensures { option_map view_texts result ≡ texts_of (map string_bytes words.entry.now) }
{
    let mut state = State {
        waiting: None,
        found: Found::nothing(),
    };
    for word in words {
        match step(state, word.as_str()) {
            Some(next) => state = next,
            None => return None,
        }
    }
    match state.waiting {
        Some(_) => None,
        None => Some(state.found),
    }
}

/// One word more.
#[tactic(auto, unfolding(crate::specs::Words::step))]
fn step<'a>(before: State<'a>, word: &'a str) -> Option<State<'a>>
    ensures { option_map view_state result ≡ step (view_state before.entry) word.now }
{
    if !is_fit(word) {
        return None;
    }
    match before.waiting {
        Some(name) => value_word(name, word, before.found),
        None => open_word(word, before.found),
    }
}

/// A word where an option waits for its value.
#[tactic(auto, unfolding(crate::specs::Words::value_word))]
fn value_word<'a>(name: Name, word: &'a str, found: Found<'a>) -> Option<State<'a>>
    ensures { option_map view_state result ≡ value_word name (long_of word.now) word.now
        (view_texts found.entry) }
{
    match long_of(word) {
        Some(_) => None,
        None => add(name, word, found),
    }
}

/// A word where none does: an option with its value or without, or the directory.
#[tactic(auto, unfolding(crate::specs::Words::open_word))]
fn open_word<'a>(word: &'a str, found: Found<'a>) -> Option<State<'a>>
    ensures { option_map view_state result ≡ open_word (long_of word.now) word.now
        (view_texts found.entry) }
{
    match long_of(word) {
        Some((name, Some(value))) => match name_of(name) {
            Some(name) => add(name, value, found),
            None => None,
        },
        Some((name, None)) => match name_of(name) {
            Some(name) => Some(State {
                waiting: Some(name),
                found,
            }),
            None => None,
        },
        None => add(Name::Directory, word, found),
    }
}

/// One text more, unless the name has one.
#[tactic(auto, unfolding(crate::specs::Words::add))]
fn add<'a>(name: Name, text: &'a str, found: Found<'a>) -> Option<State<'a>>
    ensures { option_map view_state result ≡ add name text.now (view_texts found.entry) }
{
    if found.get(name).is_some() {
        return None;
    }
    Some(State {
        waiting: None,
        found: found.with_text(name, text),
    })
}

/// The option of this name.
fn name_of(text: &str) -> Option<Name>
    ensures { result ≡ name_of text.now }
{
    if is_same("listen", text) {
        Some(Name::Listen)
    } else if is_same("workers", text) {
        Some(Name::Workers)
    } else if is_same("connections", text) {
        Some(Name::Connections)
    } else {
        None
    }
}

pub(crate) fn is_same(a: &str, b: &str) -> bool
    ensures { result ≡ bytes_eq a.now b.now }
{
    a == b
}

/// The word is not empty and does not begin with a hyphen.
pub(crate) fn is_plain(word: &str) -> bool
    ensures { result ≡ is_plain word.now }
{
    match word.as_bytes() {
        [] => false,
        [first, ..] => *first != b'-',
    }
}

/// The word is not empty, and where it begins with a hyphen it is `--x..`.
pub(crate) fn is_fit(word: &str) -> bool
    ensures { result ≡ is_fit word.now }
{
    match word.as_bytes() {
        [] => false,
        [b'-', b'-', _, ..] => true,
        [b'-', ..] => false,
        _ => true,
    }
}

// What follows a first hyphen.
fn strip_hyphen(word: &str) -> Option<&str>
    ensures { option_map (λ s. s.now) result ≡ strip_byte 45 word.now }
{
    word.strip_prefix('-')
}

// What stands before the first `=`, and what stands after it if there is one.
fn split_value(text: &str) -> (&str, Option<&str>)
    ensures { (result.0.now, option_map (λ s. s.now) result.1) ≡ name_and_value text.now }
{
    match text.split_once('=') {
        Some((name, value)) => (name, Some(value)),
        None => (text, None),
    }
}

/// `--name` or `--name=value`, as the name and the value.
fn long_of(word: &str) -> Option<(&str, Option<&str>)>
    ensures { option_map (λ p. (p.0.now, option_map (λ s. s.now) p.1)) result ≡ long_of word.now }
{
    let rest = strip_hyphen(strip_hyphen(word)?)?;
    if rest.is_empty() {
        return None;
    }
    Some(split_value(rest))
}
