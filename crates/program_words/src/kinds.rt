//! The kinds of run: what is done by the words, each in its own way.
ghost use Rattle.std.specs.Prelude.{◌≡◌, None};
ghost use Rattle.program_words.specs.Asking.{asked_of, kind_in};
ghost use Rattle.program_words.specs.Kinds.{kind_of_run};
ghost use Rattle.program_words.specs.Words.{imports, shows};

use crate::importing::import_task;
use crate::misuse::{ImportMisuse, ReadMisuse, ShowMisuse, show_misuse};
use crate::options::Options;

impl Options<'_> {
    /// Whether something of the file is to be shown, and no line to be read.
    pub fn shows(&self) -> bool
        ensures { result ≡ shows (asked_of self.now) }
    {
        self.draw.is_some() || (self.stats || self.json)
    }

    /// Whether one of the words of an import was given.
    pub fn imports(&self) -> bool
        ensures { result ≡ imports (asked_of self.now) }
    {
        let words = &self.import;
        words.layer.is_some()
            || (words.columns.is_some()
                || (words.scale.is_some() || (words.axes.is_some() || words.geojson)))
    }
}

/// What a run does.
#[derive(Clone, Copy, Debug, PartialEq, Eq)]
pub enum RunKind<'a> {
    /// It answers lines over a store in memory.
    InMemory,
    /// It answers lines over the file at this path.
    OfFile(&'a str),
    /// It answers lines over the file at this path, which is only read.
    OnlyRead(&'a str),
    /// It shows something of the file at this path.
    Shown(&'a str),
    /// It imports into the file at this path.
    Imported(&'a str),
    /// The words do not go together.
    Misused,
}

/// The kind of the run that the words ask for. (A run that shows something or imports may still find that its
/// own words do not go together.)
pub fn kind_of_run<'a>(options: &Options<'a>) -> RunKind<'a>
    ensures { kind_in result ≡ kind_of_run (asked_of options.now) }
{
    let Some(path) = options.file else {
        return kind_without_file(options);
    };
    if options.shows() {
        return RunKind::Shown(path);
    }
    if options.imports() {
        return RunKind::Imported(path);
    }
    if !options.read_only {
        return RunKind::OfFile(path);
    }
    if options.create {
        return RunKind::Misused;
    }
    RunKind::OnlyRead(path)
}

// The kind where no file is named.
fn kind_without_file<'a>(options: &Options<'a>) -> RunKind<'a>
    requires { options.now.file ≡ None }
    ensures { kind_in result ≡ kind_of_run (asked_of options.now) }
{
    if options.shows() {
        return RunKind::Misused;
    }
    if options.imports() {
        return RunKind::Misused;
    }
    if options.read_only {
        return RunKind::Misused;
    }
    RunKind::InMemory
}

/// Why the words do not go together, where they ask for a run of the kind `Misused`.
pub fn misuse_of(options: &Options<'_>) -> &'static str {
    if options.shows() {
        return show_misuse(options).unwrap_or(ShowMisuse::NoFile).text();
    }
    if options.imports() {
        return match import_task(options) {
            Ok(_) => ImportMisuse::NoFile.text(),
            Err(misuse) => misuse.text(),
        };
    }
    match options.file {
        Some(_) => ReadMisuse::Create.text(),
        None => ReadMisuse::NoFile.text(),
    }
}
