//! What is to be imported, by the words of an import.
ghost use Rattle.std.specs.Prelude.{◌≡◌, IfOk, IfSome};
ghost use Rattle.program_words.specs.Asking.{asked_of};
ghost use Rattle.program_words.specs.Targets.{IsTarget, IsTargetOf, colon_in};

use crate::misuse::ImportMisuse;
use crate::options::Options;
use box_import::{Axes, Columns, Properties, Scale, whole_number};

// The fanout of a layer that is made where none is asked for.
const FANOUT: u64 = 100;

/// What an import reads, and where its objects go.
#[derive(Clone, Copy)]
pub struct ImportTask<'a> {
    /// The layer.
    pub layer: &'a [u8],
    /// Its fanout where it is made.
    pub fanout: u64,
    /// In which form objects are read.
    pub form: ImportForm<'a>,
    /// What coordinates are multiplied by.
    pub scale: Scale,
}

/// In which form objects are read.
#[derive(Clone, Copy)]
pub enum ImportForm<'a> {
    /// As rows of these columns.
    Csv(Columns<'a>),
    /// As features, with these properties and so many axes.
    GeoJson(Properties<'a>, Axes),
}

/// What is to be imported, or why the words do not go together. (That a file is named is not looked at.)
pub fn import_task<'a>(options: &Options<'a>) -> Result<ImportTask<'a>, ImportMisuse>
    ensures { IfOk result (λ task.
        IsTargetOf (asked_of options.now).layer task.layer.now task.fanout) }
{
    if options.read_only {
        return Err(ImportMisuse::ReadOnly);
    }
    if options.strict {
        return Err(ImportMisuse::Strict);
    }
    let Some(word) = options.import.layer else {
        return Err(ImportMisuse::NoImport);
    };
    let Some((layer, fanout)) = target_of(word) else {
        return Err(ImportMisuse::Fanout);
    };
    Ok(ImportTask {
        layer,
        fanout,
        form: form_of(options)?,
        scale: scale_of(options.import.scale)?,
    })
}

// The layer and the fanout that a word says.
fn target_of(word: &str) -> Option<(&[u8], u64)>
    ensures { IfSome result (λ target. IsTarget word.now target.0.now target.1) }
{
    let bytes = word.as_bytes();
    match colon_in(bytes) {
        None => Some((bytes, FANOUT)),
        Some(at) => Some((&bytes[..at], whole_number(&bytes[at + 1..])?)),
    }
}

// Where the first colon of a word stands.
fn colon_in(word: &[u8]) -> Option<usize>
    ensures { result ≡ colon_in word.now }
{
    word.iter().position(|byte| *byte == b':')
}

// In which form objects are to be read.
fn form_of<'a>(options: &Options<'a>) -> Result<ImportForm<'a>, ImportMisuse> {
    let import = options.import;
    if import.geojson {
        return Ok(ImportForm::GeoJson(properties_of(import.columns)?, axes_of(import.axes)?));
    }
    match (import.axes, import.columns) {
        (Some(_), _) => Err(ImportMisuse::AxesOfCsv),
        (None, None) => Ok(ImportForm::Csv(Columns::Header)),
        (None, Some(list)) => Ok(ImportForm::Csv(Columns::Listed(list.as_bytes()))),
    }
}

// How many axes of features are to be read.
fn axes_of(word: Option<&str>) -> Result<Axes, ImportMisuse> {
    match word {
        None | Some("2") => Ok(Axes::Two),
        Some("3") => Ok(Axes::Three),
        Some(_) => Err(ImportMisuse::Axes),
    }
}

// What coordinates are to be multiplied by. Where nothing is said they are whole numbers: degrees would else
// become boxes of a whole degree, and nobody would notice.
fn scale_of(word: Option<&str>) -> Result<Scale, ImportMisuse> {
    match word {
        None => Ok(Scale::WHOLE),
        Some(text) => scale_in(text).ok_or(ImportMisuse::Scale),
    }
}

// The scale that a word is.
fn scale_in(text: &str) -> Option<Scale> {
    Scale::new(u32::try_from(whole_number(text.as_bytes())?).ok()?)
}

// Which properties of features hold identifiers and tags.
fn properties_of(list: Option<&str>) -> Result<Properties<'_>, ImportMisuse> {
    let list = list.unwrap_or("").as_bytes();
    let at = list
        .iter()
        .position(|byte| *byte == b',')
        .unwrap_or(list.len());
    let tag = list.get(at + 1..).unwrap_or(b"");
    if tag.contains(&b',') {
        return Err(ImportMisuse::Properties);
    }
    Ok(Properties {
        id: name_of(&list[..at]),
        tag: name_of(tag),
    })
}

// A property's name, where there is one.
fn name_of(text: &[u8]) -> Option<&[u8]> {
    let name = text.trim_ascii();
    if name.is_empty() { None } else { Some(name) }
}
