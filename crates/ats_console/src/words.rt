//! Reads the words of a command.

ghost use Rattle.std.specs.Prelude.{◌≡◌, map, string_bytes, option_map};
ghost use Rattle.std.specs.List.{list_all, list_any};
ghost use Rattle.std.specs.Char.{is_ascii_digit, is_ascii_uppercase};
ghost use Rattle.ats_console.specs.Words.{is_number_word, number_of, connections_of, algorithm_of, root_word, meaning, command_of_one, command_of_two, command_of_three, command_of_four, command_of_five, command_of};

use ats_proof::Algorithm;
use hex::FromHex;

fn are_digits(word: &[u8]) -> bool
    ensures { result ≡ list_all is_ascii_digit word.now }
{
    word.iter().all(|digit| digit.is_ascii_digit())
}

fn is_number_word(word: &[u8]) -> bool
    ensures { result ≡ is_number_word word.now }
{
    !word.is_empty() && word.len() <= 9 && (word[0] != b'0' || word.len() == 1) && are_digits(word)
}

/// A number word: 1 to 9 decimal digits, and no leading zero except in `0`.
pub fn number(word: &str) -> Option<u32>
    ensures { result ≡ number_of word.now }
{
    if !is_number_word(word.as_bytes()) {
        return None;
    }
    word.parse::<u32>().ok()
}

const MAX_CONNECTIONS: u32 = 65535;

// A number word of 1 to 65,535.
fn connections(word: &str) -> Option<u32>
    ensures { result ≡ connections_of word.now }
{
    let n = number(word)?;
    if 0 < n && n <= MAX_CONNECTIONS {
        Some(n)
    } else {
        None
    }
}

// The algorithm of this name.
fn algorithm(word: &str) -> Option<Algorithm>
    ensures { result ≡ algorithm_of word.now }
{
    match word {
        "tra" => Some(Algorithm::Tra),
        "tnra" => Some(Algorithm::Tnra),
        _ => None,
    }
}

fn has_upper_case(word: &[u8]) -> bool
    ensures { result ≡ list_any is_ascii_uppercase word.now }
{
    word.iter().any(|letter| letter.is_ascii_uppercase())
}

/// The root that 64 lower-case hexadecimal digits spell.
pub(crate) fn root_digits(word: &[u8]) -> Option<[u8; 32]>
    ensures { result ≡ root_word word.now }
{
    if has_upper_case(word) {
        return None;
    }
    <[u8; 32] as FromHex>::from_hex(word).ok()
}

fn root_word(word: &str) -> Option<[u8; 32]>
    ensures { result ≡ root_word word.now }
{
    root_digits(word.as_bytes())
}

/// A command of who has the texts: it ranks them, indexes them, or makes what others check.
#[derive(Drop)]
pub enum MakerCommand<'a> {
    /// `rank COLLECTION R QUERY`
    Rank {
        collection: &'a str,
        r: u32,
        query: &'a str,
    },
    /// `build COLLECTION INDEX`
    Build {
        collection: &'a str,
        index: &'a str,
    },
    /// `migrate INDEX INDEX2`
    Migrate {
        index: &'a str,
        migrated: &'a str,
    },
    /// `root INDEX`
    Root {
        index: &'a str,
    },
    /// `prove INDEX ALG R QUERY PROOF`
    Prove {
        index: &'a str,
        algorithm: Algorithm,
        r: u32,
        query: &'a str,
        proof: &'a str,
    },
    /// `give INDEX DOC FILE`
    Give {
        index: &'a str,
        doc: u32,
        file: &'a str,
    },
    /// `prove-both INDEX QUERY PROOF`
    ProveBoth {
        index: &'a str,
        query: &'a str,
        proof: &'a str,
    },
    /// `grow OLDINDEX NEWINDEX FILE`
    Grow {
        old: &'a str,
        new: &'a str,
        file: &'a str,
    },
    /// `prove-catalog LIST ALG R QUERY FILE`
    ProveCatalog {
        list: &'a str,
        algorithm: Algorithm,
        r: u32,
        query: &'a str,
        file: &'a str,
    },
}

/// A command of a reader, who holds only roots: it checks a file, and prints what the file shows.
#[derive(Drop)]
pub enum CheckerCommand<'a> {
    /// `verify ROOT R QUERY PROOF`
    Verify {
        root: [u8; 32],
        r: u32,
        query: &'a str,
        proof: &'a str,
    },
    /// `fetch ROOT DOC FILE`
    Fetch {
        root: [u8; 32],
        doc: u32,
        file: &'a str,
    },
    /// `both ROOT QUERY PROOF`
    Both {
        root: [u8; 32],
        query: &'a str,
        proof: &'a str,
    },
    /// `growth OLDROOT NEWROOT FILE`
    Growth {
        old: [u8; 32],
        new: [u8; 32],
        file: &'a str,
    },
    /// `catalog-root ROOTS`
    CatalogRoot {
        roots: &'a str,
    },
    /// `catalog ROOT R QUERY FILE`
    Catalog {
        root: [u8; 32],
        r: u32,
        query: &'a str,
        file: &'a str,
    },
}

/// A command of who has the archive, and wants to know whether what was accepted is right.
#[derive(Drop)]
pub enum AuditorCommand<'a> {
    /// `audit INDEX R QUERY PROOF`
    Audit {
        index: &'a str,
        r: u32,
        query: &'a str,
        proof: &'a str,
    },
    /// `audit-fetch INDEX DOC FILE`
    AuditFetch {
        index: &'a str,
        doc: u32,
        file: &'a str,
    },
    /// `audit-both INDEX QUERY PROOF`
    AuditBoth {
        index: &'a str,
        query: &'a str,
        proof: &'a str,
    },
    /// `audit-growth OLDINDEX NEWINDEX FILE`
    AuditGrowth {
        old: &'a str,
        new: &'a str,
        file: &'a str,
    },
    /// `audit-catalog LIST R QUERY FILE`
    AuditCatalog {
        list: &'a str,
        r: u32,
        query: &'a str,
        file: &'a str,
    },
    /// `sweep INDEX LIST`
    Sweep {
        index: &'a str,
        list: &'a str,
    },
    /// `trial NUMBER`
    Trial {
        number: u32,
    },
}

/// What the words ask for. A word that is a name or a text is lent.
#[derive(Drop)]
pub enum Command<'a> {
    Maker(MakerCommand<'a>),
    Checker(CheckerCommand<'a>),
    Auditor(AuditorCommand<'a>),
    /// `ask ROOT ALG R QUERY ADDRESS`
    Ask {
        root: [u8; 32],
        algorithm: Algorithm,
        r: u32,
        query: &'a str,
        address: &'a str,
    },
    /// `serve INDEX CONNECTIONS ADDRESS`
    Serve {
        index: &'a str,
        connections: u32,
        address: &'a str,
    },
}

/// What is printed for words of no command: the first word of each command of one archive, and a line feed.
pub const USAGE: &str =
    "usage: rank build root prove verify ask serve audit sweep trial migrate give fetch audit-fetch prove-both both audit-both grow growth audit-growth\n";

// The command of this word and one argument, if there is one.
fn read_one<'a>(word: &str, first: &'a str) -> Option<Command<'a>>
    ensures { option_map meaning result ≡ command_of_one word.now first.now }
{
    match word {
        "root" => Some(Command::Maker(MakerCommand::Root { index: first })),
        "trial" => Some(Command::Auditor(AuditorCommand::Trial {
            number: number(first)?,
        })),
        "catalog-root" => Some(Command::Checker(CheckerCommand::CatalogRoot { roots: first })),
        _ => None,
    }
}

// The same with two arguments.
fn read_two<'a>(word: &str, first: &'a str, second: &'a str) -> Option<Command<'a>>
    ensures { option_map meaning result ≡ command_of_two word.now first.now second.now }
{
    match word {
        "build" => Some(Command::Maker(MakerCommand::Build {
            collection: first,
            index: second,
        })),
        "sweep" => Some(Command::Auditor(AuditorCommand::Sweep {
            index: first,
            list: second,
        })),
        "migrate" => Some(Command::Maker(MakerCommand::Migrate {
            index: first,
            migrated: second,
        })),
        _ => None,
    }
}

// The same with three arguments.
fn read_three<'a>(
    word: &str,
    first: &'a str,
    second: &'a str,
    third: &'a str,
) -> Option<Command<'a>>
    ensures { option_map meaning result ≡ command_of_three word.now first.now second.now third.now }
{
    match word {
        "rank" => Some(Command::Maker(MakerCommand::Rank {
            collection: first,
            r: number(second)?,
            query: third,
        })),
        "serve" => Some(Command::Serve {
            index: first,
            connections: connections(second)?,
            address: third,
        }),
        "give" => Some(Command::Maker(MakerCommand::Give {
            index: first,
            doc: number(second)?,
            file: third,
        })),
        "fetch" => Some(Command::Checker(CheckerCommand::Fetch {
            root: root_word(first)?,
            doc: number(second)?,
            file: third,
        })),
        "audit-fetch" => Some(Command::Auditor(AuditorCommand::AuditFetch {
            index: first,
            doc: number(second)?,
            file: third,
        })),
        "prove-both" => Some(Command::Maker(MakerCommand::ProveBoth {
            index: first,
            query: second,
            proof: third,
        })),
        "both" => Some(Command::Checker(CheckerCommand::Both {
            root: root_word(first)?,
            query: second,
            proof: third,
        })),
        "audit-both" => Some(Command::Auditor(AuditorCommand::AuditBoth {
            index: first,
            query: second,
            proof: third,
        })),
        "grow" => Some(Command::Maker(MakerCommand::Grow {
            old: first,
            new: second,
            file: third,
        })),
        "growth" => Some(Command::Checker(CheckerCommand::Growth {
            old: root_word(first)?,
            new: root_word(second)?,
            file: third,
        })),
        "audit-growth" => Some(Command::Auditor(AuditorCommand::AuditGrowth {
            old: first,
            new: second,
            file: third,
        })),
        _ => None,
    }
}

// The same with four arguments.
fn read_four<'a>(
    word: &str,
    first: &'a str,
    second: &'a str,
    third: &'a str,
    fourth: &'a str,
) -> Option<Command<'a>>
    ensures { option_map meaning result ≡ command_of_four word.now first.now second.now third.now fourth.now }
{
    match word {
        "verify" => Some(Command::Checker(CheckerCommand::Verify {
            root: root_word(first)?,
            r: number(second)?,
            query: third,
            proof: fourth,
        })),
        "audit" => Some(Command::Auditor(AuditorCommand::Audit {
            index: first,
            r: number(second)?,
            query: third,
            proof: fourth,
        })),
        "catalog" => Some(Command::Checker(CheckerCommand::Catalog {
            root: root_word(first)?,
            r: number(second)?,
            query: third,
            file: fourth,
        })),
        "audit-catalog" => Some(Command::Auditor(AuditorCommand::AuditCatalog {
            list: first,
            r: number(second)?,
            query: third,
            file: fourth,
        })),
        _ => None,
    }
}

// The same with five arguments.
fn read_five<'a>(
    word: &str,
    first: &'a str,
    second: &'a str,
    third: &'a str,
    fourth: &'a str,
    fifth: &'a str,
) -> Option<Command<'a>>
    ensures { option_map meaning result ≡ command_of_five word.now first.now second.now third.now fourth.now fifth.now }
{
    match word {
        "prove" => Some(Command::Maker(MakerCommand::Prove {
            index: first,
            algorithm: algorithm(second)?,
            r: number(third)?,
            query: fourth,
            proof: fifth,
        })),
        "prove-catalog" => Some(Command::Maker(MakerCommand::ProveCatalog {
            list: first,
            algorithm: algorithm(second)?,
            r: number(third)?,
            query: fourth,
            file: fifth,
        })),
        "ask" => Some(Command::Ask {
            root: root_word(first)?,
            algorithm: algorithm(second)?,
            r: number(third)?,
            query: fourth,
            address: fifth,
        }),
        _ => None,
    }
}

/// The command of these words, if they have the shape of one.
pub fn read_words<'a>(words: &'a [String]) -> Option<Command<'a>>
    ensures { option_map meaning result ≡ command_of (map string_bytes words.now) }
{
    match words {
        [word, first] => read_one(word, first),
        [word, first, second] => read_two(word, first, second),
        [word, first, second, third] => read_three(word, first, second, third),
        [word, first, second, third, fourth] => read_four(word, first, second, third, fourth),
        [word, first, second, third, fourth, fifth] => {
            read_five(word, first, second, third, fourth, fifth)
        }
        _ => None,
    }
}
