//! Objects from lines of GeoJSON.

use crate::ImportedObject;
use crate::error::{ImportError, Why, shown};
use crate::extent::Axes;
use crate::feature::{Properties, feature_object};
use crate::member::MemberFault;
use crate::scale::Scale;
use std::alloc::Global;
use std::io::BufRead;

// The bytes that mark a text as UTF-8.
const MARK: &[u8] = b"\xef\xbb\xbf";

// What may stand in front of each line: the record separator.
const SEPARATOR: &[u8] = b"\x1e";

/// The objects of lines of GeoJSON, feature by feature.
#[derive(Drop)]
pub struct FeatureLines<'a, R: BufRead> {
    alloc: Global,
    input: R,
    properties: Properties<'a>,
    axes: Axes,
    scale: Scale,
    line: Vec<u8>,
    // How many lines were read.
    count: u64,
}

impl<'a, R: BufRead + Drop> FeatureLines<'a, R> {
    /// The lines of an input.
    pub fn new(
        alloc: Global,
        input: R,
        properties: Properties<'a>,
        axes: Axes,
        scale: Scale,
    ) -> Self {
        FeatureLines {
            alloc,
            input,
            properties,
            axes,
            scale,
            line: Vec::new(alloc),
            count: 0,
        }
    }

    /// The object of the next line that is not blank, `None` at the end of the input.
    pub fn next(&mut self) -> Result<Option<ImportedObject>, ImportError> {
        for _ in 0..u64::MAX {
            self.line.clear();
            if self.input.read_until(b'\n', &mut self.line)? == 0 {
                return Ok(None);
            }
            self.count = self.count.saturating_add(1);
            let text = feature_text(self.line.as_slice(), self.count == 1);
            if text.is_empty() {
                continue;
            }
            return match self.object(text) {
                Ok(object) => Ok(Some(object)),
                Err(fault) => Err(self.refusal(fault)),
            };
        }
        Ok(None)
    }

    /// How many lines were read.
    pub fn count(&self) -> u64 {
        self.count
    }

    // The object of the feature in the line.
    fn object<'l>(&self, text: &'l [u8]) -> Result<ImportedObject, MemberFault<'l>> {
        feature_object(text, self.properties, self.axes, self.scale, self.count)
    }

    // What is said of a fault of the line. What lacks is the property that is to give the identifier.
    fn refusal(&self, fault: MemberFault<'_>) -> ImportError {
        let MemberFault { member, text, why } = fault;
        let member = match self.properties.id {
            Some(name) if why == Why::Missing => shown(self.alloc, name),
            _ => shown(self.alloc, member),
        };
        match (member, shown(self.alloc, text)) {
            (Ok(member), Ok(text)) => ImportError::Feature {
                line: self.count,
                member,
                text,
                why,
            },
            _ => ImportError::Memory,
        }
    }
}

// The feature in a line, without blanks around it.
fn feature_text(line: &[u8], is_first: bool) -> &[u8] {
    let line = if is_first {
        line.strip_prefix(MARK).unwrap_or(line)
    } else {
        line
    };
    line.strip_prefix(SEPARATOR).unwrap_or(line).trim_ascii()
}

/// The objects of lines of GeoJSON, one for each feature: the least box of its positions, with an identifier
/// and a tag (docs/COMMANDS.md, "Import"). A line is refused by its number, the member and its text.
pub fn read_features<R: BufRead + Drop>(
    alloc: Global,
    input: R,
    properties: Properties<'_>,
    axes: Axes,
    scale: Scale,
) -> Result<Vec<ImportedObject>, ImportError> {
    let mut lines = FeatureLines::new(alloc, input, properties, axes, scale);
    let mut objects = Vec::new(alloc);
    for _ in 0..u64::MAX {
        match lines.next()? {
            Some(object) => objects.push(object)?,
            None => break,
        }
    }
    Ok(objects)
}
