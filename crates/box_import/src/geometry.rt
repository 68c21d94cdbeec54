//! The positions of a geometry.

use crate::error::Why;
use crate::extent::{Extent, Ranges, Span};
use crate::json::{Json, Member};
use crate::json_text::spells;
use crate::member::{MemberFault, no_json, value_at};

/// How deep collections of geometries may be nested.
pub(crate) const MOST_NESTED: u32 = 8;

// How deep arrays of positions are nested at most.
const MOST_OPEN: u32 = 4;

// The depth of no type.
const NO_DEPTH: u32 = 9;

// What was read of a geometry so far.
#[derive(Clone, Copy)]
struct Parts {
    // What its type says: how deep its positions are nested, 0 for a collection.
    depth: Option<u32>,
    // How deep its positions are nested, 0 where it has none, if it has coordinates.
    coordinates: Option<u32>,
    // Whether it has geometries.
    is_collection: bool,
}

/// Reads a geometry, and takes in its positions.
#[cycle(geometry)]
pub(crate) fn read_geometry<'a>(
    json: &mut Json<'a>,
    extent: &mut Extent,
    nested: u32,
) -> Result<(), MemberFault<'a>> {
    let line = json.rest();
    if nested == 0 || !json.take(b'{') {
        return Err(MemberFault::new(b"geometry", line, Why::NoGeometry));
    }
    let mut parts = Parts {
        depth: None,
        coordinates: None,
        is_collection: false,
    };
    for at in 0..line.len() {
        match json.member(at == 0) {
            Some(Member::Named(key)) => read_member(json, extent, key, &mut parts, nested - 1)?,
            Some(Member::End) => return fits(&parts, line),
            None => break,
        }
    }
    Err(no_json(b"geometry", json))
}

// Reads a member of a geometry, in which others may be nested so deep.
#[cycle(geometry)]
fn read_member<'a>(
    json: &mut Json<'a>,
    extent: &mut Extent,
    key: &'a [u8],
    parts: &mut Parts,
    nested: u32,
) -> Result<(), MemberFault<'a>> {
    if !spells(key, b"geometries") {
        return read_part(json, extent, key, parts);
    }
    if parts.is_collection {
        return Err(MemberFault::new(key, json.rest(), Why::Twice));
    }
    parts.is_collection = true;
    read_collection(json, extent, nested)
}

// Reads the geometries of a collection.
#[cycle(geometry)]
fn read_collection<'a>(
    json: &mut Json<'a>,
    extent: &mut Extent,
    nested: u32,
) -> Result<(), MemberFault<'a>> {
    let line = json.rest();
    if json.take(b'[') {
        for at in 0..line.len() {
            match json.item(at == 0) {
                Some(true) => read_geometry(json, extent, nested)?,
                Some(false) => return Ok(()),
                None => break,
            }
        }
    }
    Err(no_json(b"geometries", json))
}

// Reads a member of a geometry that is no geometries.
fn read_part<'a>(
    json: &mut Json<'a>,
    extent: &mut Extent,
    key: &'a [u8],
    parts: &mut Parts,
) -> Result<(), MemberFault<'a>> {
    let at = json.rest();
    if spells(key, b"type") {
        let depth = json.string().and_then(depth_of);
        if depth.is_none() || parts.depth.is_some() {
            return Err(MemberFault::new(key, at, Why::NoGeometry));
        }
        parts.depth = depth;
        return Ok(());
    }
    if !spells(key, b"coordinates") {
        let _text = value_at(json, key)?;
        return Ok(());
    }
    if parts.coordinates.is_some() {
        return Err(MemberFault::new(key, at, Why::Twice));
    }
    parts.coordinates = Some(read_coordinates(json, extent)?);
    Ok(())
}

// How deep the positions of a type of geometry are nested, 0 for a collection.
fn depth_of(kind: &[u8]) -> Option<u32> {
    if spells(kind, b"Point") {
        Some(1)
    } else if spells(kind, b"MultiPoint") || spells(kind, b"LineString") {
        Some(2)
    } else if spells(kind, b"MultiLineString") || spells(kind, b"Polygon") {
        Some(3)
    } else if spells(kind, b"MultiPolygon") {
        Some(4)
    } else if spells(kind, b"GeometryCollection") {
        Some(0)
    } else {
        None
    }
}

// Whether what a geometry has is that of its type.
fn fits<'a>(parts: &Parts, line: &'a [u8]) -> Result<(), MemberFault<'a>> {
    let depth = parts.depth.unwrap_or(NO_DEPTH);
    let fits = match parts.coordinates {
        None => depth == 0 && parts.is_collection,
        Some(found) => {
            depth != 0
                && depth != NO_DEPTH
                && (found == depth || found == 0)
                && !parts.is_collection
        }
    };
    if fits {
        Ok(())
    } else {
        Err(MemberFault::new(b"geometry", line, Why::NoGeometry))
    }
}

// Reads nested arrays of positions, and answers how deep those are nested, 0 where there is none.
fn read_coordinates<'a>(json: &mut Json<'a>, extent: &mut Extent) -> Result<u32, MemberFault<'a>> {
    let line = json.rest();
    let mut open = 0;
    let mut found = 0;
    for _ in 0..line.len() {
        let at = json.rest();
        if !json.take(b'[') || open >= MOST_OPEN {
            return Err(MemberFault::new(b"coordinates", at, Why::NoPosition));
        }
        open += 1;
        if json.peek() == Some(b'[') {
            continue;
        }
        if !json.take(b']') {
            read_position(json, extent)?;
            if found != 0 && found != open {
                return Err(MemberFault::new(b"coordinates", at, Why::NoPosition));
            }
            found = open;
        }
        open -= 1;
        open = closed(json, open);
        if open == 0 {
            return Ok(found);
        }
        if !json.take(b',') {
            break;
        }
    }
    Err(no_json(b"coordinates", json))
}

// Takes the ends of arrays, and answers how many are still open.
fn closed(json: &mut Json<'_>, open: u32) -> u32 {
    for left in (0..=open).rev() {
        if left == 0 || !json.take(b']') {
            return left;
        }
    }
    0
}

// Reads the numbers of a position behind its `[`, up to its end.
fn read_position<'a>(json: &mut Json<'a>, extent: &mut Extent) -> Result<(), MemberFault<'a>> {
    let line = json.rest();
    let mut position = [Span { low: 0, high: 0 }; 3];
    for at in 0..line.len() {
        let text = match json.number() {
            Some(text) => text,
            None => return Err(MemberFault::new(b"coordinates", json.rest(), Why::NoPosition)),
        };
        if at < 3 && at < extent.dims() {
            match extent.coordinate(text) {
                Ok(span) => position[at] = span,
                Err(error) => return Err(MemberFault::new(b"coordinates", text, Why::from(error))),
            }
        }
        if json.take(b']') {
            if at + 1 < extent.dims() {
                return Err(MemberFault::new(b"coordinates", line, Why::NoPosition));
            }
            let [x, y, z] = position;
            extent.add(Ranges { x, y, z });
            return Ok(());
        }
        if !json.take(b',') {
            break;
        }
    }
    Err(no_json(b"coordinates", json))
}
