//! The object of a feature of GeoJSON.

use crate::ImportedObject;
use crate::error::Why;
use crate::extent::{Axes, Extent};
use crate::geometry::{MOST_NESTED, read_geometry};
use crate::json::{Json, Member};
use crate::json_text::spells;
use crate::member::{MemberFault, no_json, number_in, value_at};
use crate::scale::Scale;

/// Which properties of a feature hold its object's identifier and its tag.
#[derive(Clone, Copy, PartialEq, Eq, Debug)]
pub struct Properties<'a> {
    /// The identifier, if it is not to be the feature's `id`.
    pub id: Option<&'a [u8]>,
    /// The tag.
    pub tag: Option<&'a [u8]>,
}

// What was read of a feature so far.
#[derive(Drop)]
struct Feature<'a, 'p> {
    json: Json<'a>,
    properties: Properties<'p>,
    extent: Extent,
    is_feature: bool,
    has_geometry: bool,
    id: Option<u64>,
    property: Option<u64>,
    tag: Option<u32>,
}

/// The object of a line. Its identifier is `number` where the feature has none and no property is to give it,
/// and its tag is 0 where the feature has none.
pub(crate) fn feature_object<'a, 'p>(
    line: &'a [u8],
    properties: Properties<'p>,
    axes: Axes,
    scale: Scale,
    number: u64,
) -> Result<ImportedObject, MemberFault<'a>> {
    if str::from_utf8(line).is_err() {
        return Err(MemberFault::new(b"feature", line, Why::NoJson));
    }
    let mut feature = Feature {
        json: Json::new(line),
        properties,
        extent: Extent::new(axes, scale),
        is_feature: false,
        has_geometry: false,
        id: None,
        property: None,
        tag: None,
    };
    feature.read(line)?;
    feature.object(line, number)
}

impl<'a, 'p> Feature<'a, 'p> {
    // Reads the line.
    fn read(&mut self, line: &'a [u8]) -> Result<(), MemberFault<'a>> {
        if !self.json.take(b'{') {
            return Err(no_json(b"feature", &self.json));
        }
        for at in 0..line.len() {
            match self.json.member(at == 0) {
                Some(Member::Named(key)) => self.member(key)?,
                Some(Member::End) if self.json.is_done() => return Ok(()),
                _ => break,
            }
        }
        Err(no_json(b"feature", &self.json))
    }

    // The object, once the line is read.
    fn object(&self, line: &'a [u8], number: u64) -> Result<ImportedObject, MemberFault<'a>> {
        if !self.is_feature {
            return Err(MemberFault::new(b"type", line, Why::NoFeature));
        }
        let id = match self.properties.id {
            Some(_) => match self.property {
                Some(id) => id,
                None => return Err(MemberFault::new(b"id", line, Why::Missing)),
            },
            None => self.id.unwrap_or(number),
        };
        match self.extent.bounds() {
            Some(bounds) => Ok((id, bounds, self.tag.unwrap_or(0))),
            None => Err(MemberFault::new(b"geometry", line, Why::Empty)),
        }
    }

    // Reads a member.
    fn member(&mut self, key: &'a [u8]) -> Result<(), MemberFault<'a>> {
        if spells(key, b"type") {
            self.kind()
        } else if spells(key, b"geometry") {
            self.geometry()
        } else if spells(key, b"id") {
            let value = value_at(&mut self.json, b"id")?;
            self.id = number_in(value, b"id", Why::NoIdentifier)?;
            Ok(())
        } else if spells(key, b"properties") {
            self.properties()
        } else {
            value_at(&mut self.json, key).map(|_| ())
        }
    }

    // Reads what kind of object the line is.
    fn kind(&mut self) -> Result<(), MemberFault<'a>> {
        let at = self.json.rest();
        match self.json.string() {
            Some(kind) if !self.is_feature && spells(kind, b"Feature") => {
                self.is_feature = true;
                Ok(())
            }
            _ => Err(MemberFault::new(b"type", at, Why::NoFeature)),
        }
    }

    // Reads the geometry.
    fn geometry(&mut self) -> Result<(), MemberFault<'a>> {
        if self.has_geometry {
            return Err(MemberFault::new(b"geometry", self.json.rest(), Why::Twice));
        }
        self.has_geometry = true;
        if self.json.word(b"null") {
            return Ok(());
        }
        read_geometry(&mut self.json, &mut self.extent, MOST_NESTED)
    }

    // Reads the properties.
    fn properties(&mut self) -> Result<(), MemberFault<'a>> {
        if self.json.word(b"null") {
            return Ok(());
        }
        let line = self.json.rest();
        if !self.json.take(b'{') {
            return Err(no_json(b"properties", &self.json));
        }
        for at in 0..line.len() {
            match self.json.member(at == 0) {
                Some(Member::Named(key)) => self.property(key)?,
                Some(Member::End) => return Ok(()),
                None => break,
            }
        }
        Err(no_json(b"properties", &self.json))
    }

    // Reads a property.
    fn property(&mut self, key: &'a [u8]) -> Result<(), MemberFault<'a>> {
        let value = value_at(&mut self.json, key)?;
        if let Some(name) = self.properties.id {
            if spells(key, name) {
                self.property = number_in(value, key, Why::NoIdentifier)?;
            }
        }
        if let Some(name) = self.properties.tag {
            if spells(key, name) {
                self.tag = tag_in(value, key)?;
            }
        }
        Ok(())
    }
}

// The tag that a value is.
fn tag_in<'a>(value: &'a [u8], key: &'a [u8]) -> Result<Option<u32>, MemberFault<'a>> {
    match number_in(value, key, Why::NoTag)? {
        None => Ok(None),
        Some(number) => match u32::try_from(number) {
            Ok(tag) => Ok(Some(tag)),
            Err(_) => Err(MemberFault::new(key, value, Why::NoTag)),
        },
    }
}
