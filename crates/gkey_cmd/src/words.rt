//! The commands of the program, and the words that ask for them.

ghost use Rattle.std.specs.Prelude.{[], ◌∷◌, ◌≡◌, ◌≤◌, ◌<◌, true, false, drop, None, IfSome, MatchOption};
ghost use Rattle.gkey_cmd.specs.Commands.{plainly_wanted, wanted, are_large, by_named_files, workers_of, chase_of, number_to, IsPlainCommand, IsCommand, IsAsked, IsChaseOf};

use demo_graph::number_of;
use gk_base::Text;

/// How many workers a chase has where the words name none.
pub(crate) const WORKERS: u32 = 4;

/// How many workers a chase has at most.
const MOST_WORKERS: u32 = 64;

/// The largest number that a demo has.
const MOST_PAIRS: u32 = 100_000;

/// The files of a command that chases one graph.
#[derive(Clone, Copy)]
pub struct GraphAndKeys<'w> {
    /// The name of the graph.
    pub graph: &'w Text,
    /// The name of the key file.
    pub keys: &'w Text,
}

/// The files of `check`.
#[derive(Clone, Copy)]
pub struct CheckFiles<'w> {
    /// The name of the graph.
    pub graph: &'w Text,
    /// The name of the key file.
    pub keys: &'w Text,
    /// The name of the proof file.
    pub proof: &'w Text,
}

/// The files of `grow`.
#[derive(Clone, Copy)]
pub struct GrowFiles<'w> {
    /// The name of the graph.
    pub graph: &'w Text,
    /// The name of the graph that is added to the first.
    pub more: &'w Text,
    /// The name of the key file.
    pub keys: &'w Text,
}

/// The files of `why`, and the words for two entities.
#[derive(Clone, Copy)]
pub struct WhyWords<'w> {
    /// The graph and the keys.
    pub files: GraphAndKeys<'w>,
    /// The word for the one entity.
    pub first: &'w Text,
    /// The word for the other.
    pub second: &'w Text,
}

/// What a run is to do, with the names of its files and the words for entities.
#[derive(Clone, Copy)]
pub enum Command<'w> {
    /// Print the classes of equal entities.
    Match {
        /// How many workers search: 1 to 64.
        workers: u32,
        files: GraphAndKeys<'w>,
    },
    /// Print a proof of all that is the same.
    Prove {
        /// How many workers search: 1 to 64.
        workers: u32,
        files: GraphAndKeys<'w>,
    },
    /// Say whether a proof is one.
    Check {
        files: CheckFiles<'w>,
    },
    /// Print a proof of either version in version 2.
    Convert {
        proof: &'w Text,
    },
    /// Match a graph that is made for it, and print how many classes there are.
    Demo {
        /// How many pairs of entities the graph has: 1 to 100,000.
        n: u32,
    },
    /// Print the graph in which each entity stands as the first member of its class.
    Merge {
        /// How many workers search: 1 to 64.
        workers: u32,
        files: GraphAndKeys<'w>,
    },
    /// Print a proof that two entities are the same, or that they are not.
    Why {
        /// How many workers search: 1 to 64.
        workers: u32,
        words: WhyWords<'w>,
    },
    /// Print the classes of equal entities of two graphs together. What is identified over the first is not searched again.
    Grow {
        /// How many workers search: 1 to 64.
        workers: u32,
        files: GrowFiles<'w>,
    },
    /// Print what the program is, how it is called, and what its statuses mean.
    Help,
    /// Print the version.
    Version,
}

/// The number from 1 to `most`, if the word is one in decimal, without sign and without leading zero.
fn number_to(word: &Text, most: u32) -> Option<u32>
    requires { (1 ≤ most) × (most ≤ 100000) }
    ensures number { result ≡ number_to most word.now }
    ensures within { IfSome result (λ n. (0 < n) × (n ≤ most)) }
{
    number_of(word.bytes(), most)
}

/// How many workers the word of the option for them asks for, if it is a number from 1 to 64.
fn workers_to(word: &Text) -> Option<u32>
    ensures number { result ≡ number_to 64 word.now }
    ensures within { IfSome result (λ n. (0 < n) × (n ≤ 64)) }
{
    number_to(word, MOST_WORKERS)
}

/// The command with a chase of one graph that has this name, if there is one.
fn chase_words<'w>(name: &Text, workers: u32, files: GraphAndKeys<'w>) -> Option<Command<'w>>
    ensures { let asked = chase_of name.now files.entry.graph.now files.entry.keys.now in
        MatchOption result (asked ≡ None) (IsChaseOf asked workers) }
{
    if name.bytes() == b"match".as_slice() {
        Some(Command::Match { workers, files })
    } else if name.bytes() == b"prove".as_slice() {
        Some(Command::Prove { workers, files })
    } else if name.bytes() == b"merge".as_slice() {
        Some(Command::Merge { workers, files })
    } else {
        None
    }
}

/// The command with this name that has these three files and no other words, if there is one.
fn three_files<'w>(
    name: &Text,
    first: &'w Text,
    second: &'w Text,
    third: &'w Text,
) -> Option<Command<'w>>
    ensures { let words = name.now ∷ first.now ∷ second.now ∷ third.now ∷ [] in
        MatchOption result (plainly_wanted words ≡ None) (IsPlainCommand words) }
{
    if name.bytes() == b"check".as_slice() {
        let files = CheckFiles {
            graph: first,
            keys: second,
            proof: third,
        };
        Some(Command::Check { files })
    } else if name.bytes() == b"grow".as_slice() {
        let files = GrowFiles {
            graph: first,
            more: second,
            keys: third,
        };
        Some(Command::Grow {
            workers: WORKERS,
            files,
        })
    } else {
        None
    }
}

/// The command that this word alone asks for, if there is one.
fn one_word<'w>(word: &Text) -> Option<Command<'w>>
    ensures { let words = word.now ∷ [] in
        MatchOption result (plainly_wanted words ≡ None) (IsPlainCommand words) }
{
    if word.bytes() == b"--help".as_slice() {
        Some(Command::Help)
    } else if word.bytes() == b"--version".as_slice() {
        Some(Command::Version)
    } else {
        None
    }
}

/// The command that this word asks for with one other, if there is one.
fn two_words<'w>(name: &Text, argument: &'w Text) -> Option<Command<'w>>
    ensures { let words = name.now ∷ argument.now ∷ [] in
        MatchOption result (plainly_wanted words ≡ None) (IsPlainCommand words) }
{
    if name.bytes() == b"convert".as_slice() {
        Some(Command::Convert { proof: argument })
    } else if name.bytes() == b"demo".as_slice() {
        Some(Command::Demo {
            n: number_to(argument, MOST_PAIRS)?,
        })
    } else {
        None
    }
}

/// The command that five words ask for, if there is one: `why` with two files and two words for entities, or a chase of two
/// files with a number of workers.
fn five_words<'w>(
    name: &Text,
    second: &'w Text,
    third: &'w Text,
    fourth: &'w Text,
    fifth: &'w Text,
) -> Option<Command<'w>>
    ensures { let words = name.now ∷ second.now ∷ third.now ∷ fourth.now ∷ fifth.now ∷ [] in
        MatchOption result (plainly_wanted words ≡ None) (IsPlainCommand words) }
{
    if name.bytes() == b"why".as_slice() {
        let words = WhyWords {
            files: GraphAndKeys {
                graph: second,
                keys: third,
            },
            first: fourth,
            second: fifth,
        };
        Some(Command::Why {
            workers: WORKERS,
            words,
        })
    } else if second.bytes() == b"--workers".as_slice() {
        let files = GraphAndKeys {
            graph: fourth,
            keys: fifth,
        };
        chase_words(name, workers_to(third)?, files)
    } else {
        None
    }
}

/// The command `grow` with a number of workers, if the words ask for it.
fn grow_words<'w>(
    name: &Text,
    option: &Text,
    workers: &Text,
    files: GrowFiles<'w>,
) -> Option<Command<'w>>
    ensures { let words = name.now ∷ option.now ∷ workers.now ∷ files.entry.graph.now ∷ files.entry.more.now ∷ files.entry.keys.now ∷ [] in
        MatchOption result (plainly_wanted words ≡ None) (IsPlainCommand words) }
{
    if name.bytes() == b"grow".as_slice() && option.bytes() == b"--workers".as_slice() {
        Some(Command::Grow {
            workers: workers_to(workers)?,
            files,
        })
    } else {
        None
    }
}

/// The command `why` with a number of workers, if the words ask for it.
fn why_words<'w>(
    name: &Text,
    option: &Text,
    workers: &Text,
    words: WhyWords<'w>,
) -> Option<Command<'w>>
    ensures { let all = name.now ∷ option.now ∷ workers.now ∷ words.entry.files.graph.now ∷ words.entry.files.keys.now ∷ words.entry.first.now ∷ words.entry.second.now ∷ [] in
        MatchOption result (plainly_wanted all ≡ None) (IsPlainCommand all) }
{
    if name.bytes() == b"why".as_slice() && option.bytes() == b"--workers".as_slice() {
        Some(Command::Why {
            workers: workers_to(workers)?,
            words,
        })
    } else {
        None
    }
}

/// The command that words without `--large` ask for, if there is one.
fn plain_words<'w>(words: &'w [Text]) -> Option<Command<'w>>
    ensures { MatchOption result (plainly_wanted words.now ≡ None) (IsPlainCommand words.now) }
{
    match words {
        [name] => one_word(name),
        [name, argument] => two_words(name, argument),
        [name, graph, keys] => chase_words(name, WORKERS, GraphAndKeys { graph, keys }),
        [name, first, second, third] => three_files(name, first, second, third),
        [name, second, third, fourth, fifth] => five_words(name, second, third, fourth, fifth),
        [name, option, workers, graph, more, keys] => {
            let files = GrowFiles { graph, more, keys };
            grow_words(name, option, workers, files)
        }
        [name, option, workers, graph, keys, first, second] => {
            let files = GraphAndKeys { graph, keys };
            let words = WhyWords {
                files,
                first,
                second,
            };
            why_words(name, option, workers, words)
        }
        _ => None,
    }
}

/// The words behind `--large`, if the words begin with it.
fn behind_large(words: &[Text]) -> Option<&[Text]>
    ensures { MatchOption result (are_large words.now ≡ false) (λ others. (are_large words.now ≡ true) × (others.now ≡ drop 1 words.now)) }
{
    let [first, others @ ..] = words else {
        return None;
    };
    if first.bytes() == b"--large".as_slice() {
        Some(others)
    } else {
        None
    }
}

/// Whether the words begin with `--large`.
pub(crate) fn are_large(words: &[Text]) -> bool
    ensures { result ≡ are_large words.now }
{
    behind_large(words).is_some()
}

/// The command that words behind `--large` ask for, if there is one: it is none that goes by no file that the words name.
fn large_words<'w>(words: &'w [Text]) -> Option<Command<'w>>
    ensures { let asked = by_named_files (plainly_wanted words.now) in
        MatchOption result (asked ≡ None) (IsAsked asked (workers_of words.now)) }
{
    match plain_words(words)? {
        Command::Demo { .. } | Command::Help | Command::Version => None,
        command => Some(command),
    }
}

/// The command that the words after the program's name ask for. None comes exactly where they ask for none. It takes
/// no memory.
pub fn read_words<'w>(words: &'w [Text]) -> Option<Command<'w>>
    ensures { MatchOption result (wanted words.now ≡ None) (IsCommand words.now) }
{
    match behind_large(words) {
        Some(others) => large_words(others),
        None => plain_words(words),
    }
}
