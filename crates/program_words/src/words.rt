//! What the words of the command line ask for.
ghost use Rattle.std.specs.Prelude.{◌≡◌, ◌≤◌, IfOk, IfSome, codes, false, true};
ghost use Rattle.clap.specs.Simple.{on_top};
ghost use Rattle.clap.specs.Walk.{texts};
ghost use Rattle.clap.specs.Words.{FailsBy, app_of, fault_of, first_value, found_of, new_app, one_text};
ghost use Rattle.clap.specs.Words.{rule_of, with_rule};
ghost use Rattle.page_file.specs.Layout.{version_number};
ghost use Rattle.program_words.specs.Asking.{asked_of};
ghost use Rattle.program_words.specs.Words.{Asks, IsNumberSaid, IsSaid, cache_rule, create_rule, file_rule};
ghost use Rattle.program_words.specs.Words.{flag_rule, format_rule, import_rules, is_cache, number_rule};
ghost use Rattle.program_words.specs.Words.{program, read_only_rule, show_rules};
ghost use Rattle.program_words.specs.Words.{strict_rule, valued_rule};

use crate::options::{ImportWords, Limits, Options};
use clap::builder::ValueParser;
use clap::{Arg, ArgAction, ArgMatches, Command, Error, value_parser};
use page_file::Version;
use std::alloc::{AllocError, Global};

const ABOUT: &str =
    "A spatial store: commands on standard input, one a line, and replies on standard output.";

const AFTER_HELP: &str =
    "Changes are kept in FILE at each `reopen` and at the end of the input. Where the program is killed or \
the machine stops, what was kept is not lost: the next run brings it back from FILE-journal, which lies \
beside FILE as long as a run has not ended. FILE without FILE-journal is refused then, where that run had \
closed something. Where a run with --create is killed before it has closed anything, FILE may be there \
without bytes, or be refused by NotClosed: remove it and make it anew.\n\n\
The status is 0 where all lines were answered, also by `fail`, 1 where the store, the input or the output \
failed, and 2 where the words are refused. With --read-only no byte of FILE is written, each change answers \
`fail 17 Device`, and the status is 1 where one was asked. With --strict the first line that is refused ends \
the run: the line and its number are told on standard error, the status is 3, and nothing is closed, so FILE \
has the table that it had before the run, or that of the last `reopen` in it. docs/COMMANDS.md tells the \
commands.\n\n\
With --draw LAYER and with --stats no line is read, and no byte of FILE is written. With --import LAYER \
standard input holds objects, as CSV or lines of GeoJSON: they are put into the layer, all or none; where \
their text is refused the status is 3, and FILE is not opened. Coordinates are whole numbers, or decimals \
where --scale N says by what they are multiplied (100000 for degrees), rounded outward then. FILE is of \
version 3 once a layer was made in it. With --format 2 it stays below that, for programs that know no other, \
large layers are slower to change, and a FILE of version 3 is refused. Examples:\n\n  \
rstore --create map.rst <map.txt\n  \
rstore --format 2 --create old.rst <map.txt\n  rstore --strict map.rst <changes.txt\n  \
rstore --draw roads map.rst >roads.svg\n  rstore --stats map.rst\n  \
rstore --stats --json map.rst >map.json\n  \
rstore --create --import roads:50 --scale 1000 map.rst <roads.csv\n  \
rstore --import parks --geojson --columns id,kind --scale 100000 map.rst <parks.geojson";

// How many pages are cached where nothing else is asked for.
const CACHED_PAGES: u32 = 64;

// The number of pages, which `clap` has held to the range.
fn cached_pages(asked: Option<u32>) -> u32
    ensures fits { is_cache result ≡ true }
    ensures as_asked { IfSome asked (λ pages. is_cache pages ≡ true → result ≡ pages) }
{
    match asked {
        Some(pages) if pages >= 8 && pages <= 4096 => pages,
        _ => CACHED_PAGES,
    }
}

// The newest version that the file may have, whose number `clap` has held to the range.
fn newest_version(asked: Option<u32>) -> Version
    ensures { IfSome asked (λ n. 2 ≤ n → n ≤ 3 → version_number result ≡ n) }
{
    match asked {
        Some(2) => Version::Two,
        _ => Version::Three,
    }
}

// A flag of this name.
fn flag<'a>(alloc: Global, name: &'a str, help: &'a str) -> Arg<'a>
    ensures rule { rule_of result ≡ flag_rule name.now }
    ensures own { result.global ≡ false }
{
    Arg::new(alloc, name)
        .long(name)
        .help(help)
        .action(ArgAction::SetTrue)
}

// A word with a number that this parser reads, and with the one that is meant where none is said.
fn number<'a>(
    alloc: Global,
    name: &'a str,
    help: &'a str,
    parser: ValueParser<'a>,
    default: &'a str,
) -> Arg<'a>
    ensures rule { rule_of result ≡ number_rule name.now parser.entry default.now }
    ensures own { result.global ≡ false }
{
    Arg::new(alloc, name)
        .long(name)
        .value_name("N")
        .help(help)
        .value_parser(parser)
        .default_value(default)
}

// The words that the program takes, as `clap` reads them. Each is made where it is put in: one that waits in a
// variable meanwhile is dear to prove, since each call that may fail lets it go.
fn command<'a>(alloc: Global) -> Result<Command<'a>, AllocError>
    ensures { IfOk result (λ c. app_of c ≡ program) }
{
    let limited = with_limits(alloc, without_words(alloc))?;
    let plain = with_flags(alloc, limited)?;
    with_import(alloc, with_shows(alloc, plain)?)?.arg(file_word(alloc))
}

// The program before it has words.
fn without_words<'a>(alloc: Global) -> Command<'a>
    ensures { app_of result ≡ on_top (λ s. record s { has_version = true }) (new_app (codes "rstore")) }
{
    Command::new(alloc, "rstore")
        .version("1")
        .about(ABOUT)
        .after_help(AFTER_HELP)
}

// The words, with those of what the store is held to.
fn with_limits<'a>(alloc: Global, words: Command<'a>) -> Result<Command<'a>, AllocError>
    ensures { IfOk result (λ c. app_of c ≡ with_rule (with_rule (app_of words.entry) cache_rule) format_rule) }
{
    words.arg(cache_word(alloc))?.arg(format_word(alloc))
}

// How many pages are cached.
fn cache_word<'a>(alloc: Global) -> Arg<'a>
    ensures rule { rule_of result ≡ cache_rule }
    ensures own { result.global ≡ false }
{
    number(
        alloc,
        "cache",
        "How many pages the store caches, 8 to 4096",
        value_parser!(u32).range(8..=4096),
        "64",
    )
}

// The newest version of the file.
fn format_word<'a>(alloc: Global) -> Arg<'a>
    ensures rule { rule_of result ≡ format_rule }
    ensures own { result.global ≡ false }
{
    number(
        alloc,
        "format",
        "The newest version of its format that FILE may have, 2 or 3",
        value_parser!(u32).range(2..=3),
        "3",
    )
}

// The words, with the flags of a run that answers lines.
fn with_flags<'a>(alloc: Global, words: Command<'a>) -> Result<Command<'a>, AllocError>
    ensures { IfOk result (λ c. app_of c ≡ with_rule (with_rule (with_rule (app_of words.entry)
        create_rule) read_only_rule) strict_rule) }
{
    words
        .arg(flag(alloc, "create", "Make FILE, which must be missing or empty"))?
        .arg(flag(
            alloc,
            "read-only",
            "Only read FILE, also beside a run that writes it",
        ))?
        .arg(flag(
            alloc,
            "strict",
            "End at the first line that is refused, with status 3, and close nothing",
        ))
}

// The file.
fn file_word<'a>(alloc: Global) -> Arg<'a>
    ensures rule { rule_of result ≡ file_rule }
    ensures own { result.global ≡ false }
{
    Arg::new(alloc, "file").value_name("FILE").help(
        "The file of the store; without it the store is in memory and is lost at the end",
    )
}

// The words, with those by which something is shown.
fn with_shows<'a>(alloc: Global, words: Command<'a>) -> Result<Command<'a>, AllocError>
    ensures { IfOk result (λ c. app_of c ≡ show_rules (app_of words.entry)) }
{
    words
        .arg(valued(
            alloc,
            "draw",
            "LAYER",
            "Write an SVG picture of the layer's tree, and read no line",
        ))?
        .arg(flag(
            alloc,
            "stats",
            "Tell what one tunes each layer by, and read no line",
        ))?
        .arg(flag(alloc, "json", "With --stats, tell it as JSON"))
}

// A word with a value.
fn valued<'a>(alloc: Global, name: &'a str, value: &'a str, help: &'a str) -> Arg<'a>
    ensures rule { rule_of result ≡ valued_rule name.now }
    ensures own { result.global ≡ false }
{
    Arg::new(alloc, name)
        .long(name)
        .value_name(value)
        .help(help)
}

// The words, with those of an import.
fn with_import<'a>(alloc: Global, words: Command<'a>) -> Result<Command<'a>, AllocError>
    ensures { IfOk result (λ c. app_of c ≡ import_rules (app_of words.entry)) }
{
    words
        .arg(valued(
            alloc,
            "import",
            "LAYER[:FANOUT]",
            "Put the objects of the input into the layer, all or none",
        ))?
        .arg(valued(
            alloc,
            "columns",
            "LIST",
            "Which columns: id,minx,miny,maxx,maxy[,tag]; of GeoJSON which properties: id,tag",
        ))?
        .arg(valued(
            alloc,
            "scale",
            "N",
            "What coordinates are multiplied by, 1 to 1000000000; without it they are whole numbers",
        ))?
        .arg(valued(
            alloc,
            "axes",
            "N",
            "How many axes of GeoJSON are read, 2 or 3",
        ))?
        .arg(flag(
            alloc,
            "geojson",
            "The input is lines of GeoJSON, and no CSV",
        ))
}

// What the store is held to, by what `clap` found.
fn limits_in(matches: &ArgMatches<'_>) -> Limits
    ensures fits { is_cache result.cache ≡ true }
    ensures cache { IsNumberSaid 8 4096 (one_text (found_of matches.now) (codes "cache")) result.cache }
    ensures newest { IsNumberSaid 2 3 (one_text (found_of matches.now) (codes "format"))
        (version_number result.newest) }
{
    Limits {
        cache: cached_pages(matches.get_one::<u32>("cache")),
        newest: newest_version(matches.get_one::<u32>("format")),
    }
}

// What is asked for, by what `clap` found. That is only lent here: where it is let go, each call is dear to prove.
fn options_in<'a>(matches: &ArgMatches<'a>) -> Options<'a>
    ensures { IsSaid (one_text (found_of matches.now)) (first_value (found_of matches.now)) (asked_of result) }
{
    Options {
        limits: limits_in(matches),
        create: matches.get_flag("create"),
        read_only: matches.get_flag("read-only"),
        strict: matches.get_flag("strict"),
        draw: matches.get_str("draw"),
        stats: matches.get_flag("stats"),
        json: matches.get_flag("json"),
        import: ImportWords {
            layer: matches.get_str("import"),
            columns: matches.get_str("columns"),
            scale: matches.get_str("scale"),
            axes: matches.get_str("axes"),
            geojson: matches.get_flag("geojson"),
        },
        file: matches.get_str("file"),
    }
}

/// What the words ask for, the first of which is the program's name; or the text of `clap` that refuses them
/// or helps.
pub fn read_words<'a>(alloc: Global, words: &'a [&'a str]) -> Result<Options<'a>, Error>
    ensures asked { IfOk result (λ o. Asks (texts words.now) (asked_of o)) }
    ensures refused { FailsBy (fault_of program (texts words.now)) result }
{
    let matches = command(alloc)?.try_get_matches_from(words)?;
    Ok(options_in(&matches))
}
