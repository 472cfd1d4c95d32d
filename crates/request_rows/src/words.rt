//! Lists of words, with what the usage of each command says of them by hand.

use std::alloc::Global;
use wfs_ends::{Mem, OutOfMemory};
use wfs_words::{Command, WordFault, directory, read_words};

/// Words, what they ask for, and of which directory.
static ROWS: [(&[&str], &str, &str); 70] = [
    (
        &["serve", "--workers=2", "DIR", "--listen", "127.0.0.1:0"],
        "serve 127.0.0.1:0 2",
        "DIR",
    ),
    (&["talk", "DIR"], "talk", "DIR"),
    (&["check", "."], "check", "."),
    (&["compact", "a b"], "compact", "a b"),
    (&["drill", "7", "d"], "drill 7", "d"),
    (&["drill", "+007", "d"], "drill 7", "d"),
    (&["drill", "1", "d"], "drill 1", "d"),
    (&["drill", "100000", "d"], "drill 100000", "d"),
    (
        &["serve", "--listen", "a", "--workers", "2", "d"],
        "serve a 2",
        "d",
    ),
    (
        &["serve", "d", "--listen=a", "--workers=2"],
        "serve a 2",
        "d",
    ),
    (
        &[
            "serve",
            "--connections",
            "5",
            "d",
            "--workers",
            "2",
            "--listen",
            "a",
        ],
        "serve a 2 5",
        "d",
    ),
    (
        &[
            "serve",
            "--listen",
            "a",
            "--workers",
            "+16",
            "--connections=+1000000",
            "d",
        ],
        "serve a 16 1000000",
        "d",
    ),
    (
        &["serve", "--listen=a", "--workers=2", "--connections=1", "d"],
        "serve a 2 1",
        "d",
    ),
    (
        &["serve", "--listen=-a=b", "--workers", "01", "talk"],
        "serve -a=b 1",
        "talk",
    ),
    (
        &["serve", "--listen", "é:1", "--workers", "2", "ü"],
        "serve é:1 2",
        "ü",
    ),
    (&[], "refused", ""),
    (&["talk"], "refused", ""),
    (&["talk", "a", "b"], "refused", ""),
    (&["talk", "--", "a"], "refused", ""),
    (&["talk", ""], "refused", ""),
    (&["talk", "-"], "refused", ""),
    (&["talk", "-a"], "refused", ""),
    (&["talk", "--listen=a", "d"], "refused", ""),
    (&["", "d"], "refused", ""),
    (&["Talk", "d"], "refused", ""),
    (&["check"], "refused", ""),
    (&["compact", "a", "b"], "refused", ""),
    (&["help"], "refused", ""),
    (&["--help"], "refused", ""),
    (&["talk", "--help"], "refused", ""),
    (&["serve"], "refused", ""),
    (&["serve", "d"], "refused", ""),
    (
        &["serve", "--listen", "x", "--workers", "17", "d"],
        "refused",
        "",
    ),
    (
        &["serve", "--listen", "x", "--workers", "0", "d"],
        "refused",
        "",
    ),
    (&["serve", "--workers", "2", "d"], "refused", ""),
    (&["serve", "--listen", "a", "d"], "refused", ""),
    (&["serve", "--listen", "a", "--workers", "2"], "refused", ""),
    (
        &["serve", "--listen", "a", "--workers", "2", "d", "e"],
        "refused",
        "",
    ),
    (
        &[
            "serve",
            "--listen",
            "a",
            "--listen",
            "a",
            "--workers",
            "2",
            "d",
        ],
        "refused",
        "",
    ),
    (
        &["serve", "--listen", "a", "--workers=2", "--workers=2", "d"],
        "refused",
        "",
    ),
    (
        &[
            "serve",
            "--listen",
            "a",
            "--workers",
            "2",
            "d",
            "--connections",
        ],
        "refused",
        "",
    ),
    (
        &[
            "serve",
            "--listen",
            "a",
            "--workers",
            "2",
            "--connections",
            "0",
            "d",
        ],
        "refused",
        "",
    ),
    (
        &[
            "serve",
            "--listen",
            "a",
            "--workers",
            "2",
            "--connections",
            "1000001",
            "d",
        ],
        "refused",
        "",
    ),
    (
        &[
            "serve",
            "--listen",
            "a",
            "--workers",
            "2",
            "--connections=",
            "d",
        ],
        "refused",
        "",
    ),
    (&["serve", "--listen", "--workers", "2", "d"], "refused", ""),
    (
        &["serve", "--listen", "-a", "--workers", "2", "d"],
        "refused",
        "",
    ),
    (
        &["serve", "--listen=", "--workers", "2", "d"],
        "refused",
        "",
    ),
    (
        &["serve", "--listen", "", "--workers", "2", "d"],
        "refused",
        "",
    ),
    (
        &["serve", "--listen", "a", "--workers=", "d"],
        "refused",
        "",
    ),
    (
        &["serve", "--listen", "a", "--workers", "+", "d"],
        "refused",
        "",
    ),
    (
        &["serve", "--listen", "a", "--workers", "2x", "d"],
        "refused",
        "",
    ),
    (
        &["serve", "--listen", "a", "--workers=-2", "d"],
        "refused",
        "",
    ),
    (
        &["serve", "--listen", "a", "--workers", "4294967298", "d"],
        "refused",
        "",
    ),
    (
        &["serve", "--listen", "a", "--worker", "2", "d"],
        "refused",
        "",
    ),
    (
        &["serve", "--LISTEN", "a", "--workers", "2", "d"],
        "refused",
        "",
    ),
    (&["serve", "-l", "a", "--workers", "2", "d"], "refused", ""),
    (
        &["serve", "--listen", "a", "--workers", "2", "--", "d"],
        "refused",
        "",
    ),
    (
        &["serve", "--listen", "a", "--workers", "2", "-", "d"],
        "refused",
        "",
    ),
    (
        &["serve", "--listen", "a", "--workers", "2", "--help", "d"],
        "refused",
        "",
    ),
    (
        &["serve", "--listen", "a", "--workers", "2", "--x=1", "d"],
        "refused",
        "",
    ),
    (
        &["serve", "--listen", "a", "--workers", "2", ""],
        "refused",
        "",
    ),
    (&["drill", "0", "d"], "refused", ""),
    (&["drill", "100001", "d"], "refused", ""),
    (&["drill", "-1", "d"], "refused", ""),
    (&["drill", "d"], "refused", ""),
    (&["drill", "d", "7"], "refused", ""),
    (&["drill", "7"], "refused", ""),
    (&["drill", "7", "d", "e"], "refused", ""),
    (&["drill", "7", "-d"], "refused", ""),
    (&["drill", "99999999999999999999999", "d"], "refused", ""),
];

fn words_of(alloc: Global, words: &[&str]) -> Mem<Vec<String>> {
    let mut all = Vec::new(alloc);
    for word in words {
        all.push(String::from_str(alloc, word)?)?;
    }
    Ok(all)
}

/// A command in words.
fn text_of(alloc: Global, command: Command) -> Mem<String> {
    let text = match command {
        Command::Talk => String::from_str(alloc, "talk")?,
        Command::Check => String::from_str(alloc, "check")?,
        Command::Compact => String::from_str(alloc, "compact")?,
        Command::Drill(requests) => format!(in alloc; "drill {requests}")?,
        Command::Serve {
            listen,
            workers,
            connections,
        } => match connections {
            None => format!(in alloc; "serve {} {}", listen.as_str(), workers)?,
            Some(limit) => format!(in alloc; "serve {} {} {}", listen.as_str(), workers, limit)?,
        },
    };
    Ok(text)
}

fn answer_of(alloc: Global, words: &[String]) -> Mem<String> {
    match read_words(alloc, words) {
        Ok(command) => text_of(alloc, command),
        Err(WordFault::Refused) => Ok(String::from_str(alloc, "refused")?),
        Err(WordFault::OutOfMemory) => Err(OutOfMemory),
    }
}

/// The first row that is read otherwise.
fn first_misread(alloc: Global) -> Mem<Option<usize>> {
    for (i, (words, want, folder)) in ROWS.iter().enumerate() {
        let words = words_of(alloc, words)?;
        if answer_of(alloc, &words)?.as_str() != *want || directory(&words) != *folder {
            return Ok(Some(i));
        }
    }
    Ok(None)
}

#[test]
fn words_are_read_as_the_usage_says(rt: HostRuntime) {
    assert_eq!(rt; first_misread(rt.alloc()), Ok(None));
}

#[test]
fn faults_have_their_texts(rt: HostRuntime) {
    let alloc = rt.alloc();
    let refused = format!(in alloc; "{}", WordFault::Refused).expect(&rt, "memory");
    assert_eq!(rt; refused.as_str(), "bad words");
}
