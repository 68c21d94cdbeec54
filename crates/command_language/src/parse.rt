//! Lines, and what each of them asks.

ghost use Rattle.std.specs.Prelude.{◌≡◌, ◌<◌, ◌⊎◌, ◌∷◌, length, codes, None, Some, IfSome, IfNone};
ghost use Rattle.std.specs.Prelude.{option_map};
ghost use Rattle.plain_table.specs.Commands.Command.{Insert, Move, Delete, Drop, Get, Count};
ghost use Rattle.plain_table.specs.Commands.Command.{Layers, Dump, Check, Reopen};
ghost use Rattle.command_language.specs.Meanings.{meaning_of, create_of, insert_of, move_of, object_of};
ghost use Rattle.command_language.specs.Meanings.{layer_of};
ghost use Rattle.command_language.specs.Entries.{entry_in};
ghost use Rattle.command_language.specs.Meanings.{box_query_of, point_query_of, nearest_of, join_of, alone_of};
ghost use Rattle.command_language.specs.Meanings.{load_of};
ghost use Rattle.command_language.specs.Meanings.{command_of, question_of, asked};
ghost use Rattle.command_language.specs.Numbers.{coordinates_of, box_from, box_of, point_from, point_of};
ghost use Rattle.command_language.specs.Numbers.{and_tag, before_tag, from_tag, tag_behind};
ghost use Rattle.command_language.specs.Said.{said, said_or_bad};

use crate::words::{Words, coordinate, number};
use arrayvec::ArrayVec;
use plain_table::{MOST_OBJECTS, RawBox, RawPoint, RawQuery};

/// How many bytes a line may have, without its newline. A longer one is bad.
pub const MAX_LINE: usize = 4096;

// How many coordinates a box has at most.
const MOST_BOUNDS: usize = 6;

/// A line that was read (docs/COMMANDS.md). It borrows the names of layers from the line's bytes.
#[derive(Clone, Copy, PartialEq, Eq, Debug)]
pub enum Line<'a> {
    /// A line of blanks, or a comment. It has no reply.
    Blank,
    /// A line that is none of the language.
    Bad,
    /// `create LAYER NUM NUM`: makes an empty layer.
    Create {
        /// The name that the layer is to have, any bytes but blanks.
        layer: &'a [u8],
        /// How many axes its boxes are to have.
        dims: u64,
        /// How many entries a node of it may have.
        fanout: u64,
    },
    /// `insert LAYER NUM BOX [tag NUM]`: adds an object.
    Insert {
        /// The layer's name.
        layer: &'a [u8],
        /// The object's identifier.
        id: u64,
        /// The object's box.
        bounds: RawBox,
        /// The tag, 0 where none is given.
        tag: u32,
    },
    /// `load LAYER NUM`: adds so many objects to a layer that has none. Their entry lines follow.
    Load {
        /// The layer's name.
        layer: &'a [u8],
        /// How many entry lines follow, no more than a store has objects.
        count: u64,
    },
    /// `move LAYER NUM BOX`: gives an object another box.
    Move {
        /// The layer's name.
        layer: &'a [u8],
        /// The object's identifier.
        id: u64,
        /// The box that the object is to have.
        bounds: RawBox,
    },
    /// `delete LAYER NUM`: takes out an object.
    Delete {
        /// The layer's name.
        layer: &'a [u8],
        /// The object's identifier.
        id: u64,
    },
    /// `drop LAYER`: takes out a layer.
    Drop {
        /// The layer's name.
        layer: &'a [u8],
    },
    /// `get LAYER NUM`: asks for an object.
    Get {
        /// The layer's name.
        layer: &'a [u8],
        /// The object's identifier.
        id: u64,
    },
    /// `count LAYER`: asks how many objects there are.
    Count {
        /// The layer's name.
        layer: &'a [u8],
    },
    /// `window LAYER BOX [tag NUM]`, and so `inside` and `around`, or `point LAYER PT [tag NUM]`: asks for
    /// the objects whose boxes meet the box, are within it or enclose it, or hold the point.
    Range {
        /// The layer's name.
        layer: &'a [u8],
        /// What is asked of the boxes.
        query: RawQuery,
        /// The tag that is asked for, if one is.
        tag: Option<u32>,
    },
    /// `nearest LAYER NUM PT`: asks for the objects nearest to a point.
    Nearest {
        /// The layer's name.
        layer: &'a [u8],
        /// How many objects are asked for.
        k: u64,
        /// The point.
        point: RawPoint,
    },
    /// `join LAYER LAYER [NUM]`: asks for the pairs of objects whose boxes meet, or are so near.
    Join {
        /// The first layer's name.
        first: &'a [u8],
        /// The second layer's name.
        second: &'a [u8],
        /// The greatest squared distance, 0 where none is given.
        within: u64,
    },
    /// `layers`: asks which layers there are.
    Layers,
    /// `dump`: asks for all layers and objects.
    Dump,
    /// `check`: asks whether the store's pages are as they have to be.
    Check,
    /// `reopen`: closes the store and opens it again.
    Reopen,
}

/// The meaning of a line, given without its newline. It takes no memory.
pub fn parse_line(line: &[u8]) -> Line<'_>
    ensures { said result ≡ meaning_of line.now }
{
    if line.len() > MAX_LINE {
        return Line::Bad;
    }
    let mut words = Words::new(line);
    match words.next() {
        None => Line::Blank,
        Some(name) => {
            if name.first() == Some(&b'#') {
                Line::Blank
            } else {
                command(name, words).unwrap_or(Line::Bad)
            }
        }
    }
}

/// The object that an entry line of a load gives: its identifier, its box and its tag.
pub fn parse_entry(line: &[u8]) -> Option<(u64, RawBox, u32)>
    ensures { result ≡ entry_in line.now }
{
    if MAX_LINE < line.len() {
        return None;
    }
    let mut words = Words::new(line);
    let id = number(words.next()?)?;
    let (bounds, tag) = tagged_bounds(words)?;
    Some((id, bounds, tag.unwrap_or(0)))
}

// The command of that name, from the words after it.
fn command<'a>(name: &[u8], words: Words<'a>) -> Option<Line<'a>>
    ensures { said_or_bad result ≡ command_of name.now words.entry }
{
    if name == b"create".as_slice() {
        create(words)
    } else if name == b"insert".as_slice() {
        insert(words)
    } else if name == b"load".as_slice() {
        load(words)
    } else if name == b"move".as_slice() {
        move_object(words)
    } else if name == b"delete".as_slice() {
        delete(words)
    } else if name == b"drop".as_slice() {
        drop_layer(words)
    } else if name == b"reopen".as_slice() {
        reopen(words)
    } else {
        question(name, words)
    }
}

// The question of that name, from the words after it.
fn question<'a>(name: &[u8], words: Words<'a>) -> Option<Line<'a>>
    ensures { said_or_bad result ≡ question_of name.now words.entry }
{
    if name == b"get".as_slice() {
        get(words)
    } else if name == b"count".as_slice() {
        count(words)
    } else if name == b"window".as_slice() {
        window(words)
    } else if name == b"inside".as_slice() {
        inside(words)
    } else if name == b"around".as_slice() {
        around(words)
    } else if name == b"point".as_slice() {
        point(words)
    } else if name == b"nearest".as_slice() {
        nearest(words)
    } else if name == b"join".as_slice() {
        join(words)
    } else if name == b"layers".as_slice() {
        layers(words)
    } else if name == b"dump".as_slice() {
        dump(words)
    } else if name == b"check".as_slice() {
        check(words)
    } else {
        None
    }
}

// `LAYER NUM NUM`
fn create(mut words: Words<'_>) -> Option<Line<'_>>
    ensures { said_or_bad result ≡ asked (create_of words.entry) }
{
    let layer = words.next()?;
    let dims = number(words.next()?)?;
    let fanout = number(words.next()?)?;
    if words.is_done() {
        Some(Line::Create {
            layer,
            dims,
            fanout,
        })
    } else {
        None
    }
}

// `LAYER NUM BOX [tag NUM]`
fn insert(mut words: Words<'_>) -> Option<Line<'_>>
    ensures { said_or_bad result ≡ asked (insert_of words.entry) }
{
    let layer = words.next()?;
    let id = number(words.next()?)?;
    let (bounds, tag) = tagged_bounds(words)?;
    Some(Line::Insert {
        layer,
        id,
        bounds,
        tag: tag.unwrap_or(0),
    })
}

// `LAYER NUM`
fn load(mut words: Words<'_>) -> Option<Line<'_>>
    ensures { said_or_bad result ≡ load_of words.entry }
{
    let layer = words.next()?;
    let count = number(words.next()?)?;
    if words.is_done() && count <= MOST_OBJECTS {
        Some(Line::Load { layer, count })
    } else {
        None
    }
}

// `LAYER NUM BOX`
fn move_object(mut words: Words<'_>) -> Option<Line<'_>>
    ensures { said_or_bad result ≡ asked (move_of words.entry) }
{
    let layer = words.next()?;
    let id = number(words.next()?)?;
    let bounds = bounds(words)?;
    Some(Line::Move { layer, id, bounds })
}

// `LAYER NUM`
fn delete(mut words: Words<'_>) -> Option<Line<'_>>
    ensures { said_or_bad result ≡ asked (object_of (λ layer id. Delete layer id) words.entry) }
{
    let layer = words.next()?;
    let id = number(words.next()?)?;
    if words.is_done() {
        Some(Line::Delete { layer, id })
    } else {
        None
    }
}

// `LAYER`
fn drop_layer(mut words: Words<'_>) -> Option<Line<'_>>
    ensures { said_or_bad result ≡ asked (layer_of (λ layer. Drop layer) words.entry) }
{
    let layer = words.next()?;
    if words.is_done() {
        Some(Line::Drop { layer })
    } else {
        None
    }
}

// `LAYER NUM`
fn get(mut words: Words<'_>) -> Option<Line<'_>>
    ensures { said_or_bad result ≡ asked (object_of (λ layer id. Get layer id) words.entry) }
{
    let layer = words.next()?;
    let id = number(words.next()?)?;
    if words.is_done() {
        Some(Line::Get { layer, id })
    } else {
        None
    }
}

// `LAYER`
fn count(mut words: Words<'_>) -> Option<Line<'_>>
    ensures { said_or_bad result ≡ asked (layer_of (λ layer. Count layer) words.entry) }
{
    let layer = words.next()?;
    if words.is_done() {
        Some(Line::Count { layer })
    } else {
        None
    }
}

// `LAYER BOX [tag NUM]`
fn window(mut words: Words<'_>) -> Option<Line<'_>>
    ensures { said_or_bad result ≡ asked (box_query_of (λ b. RawQuery.Window b) words.entry) }
{
    let layer = words.next()?;
    let (bounds, tag) = tagged_bounds(words)?;
    let query = RawQuery::Window(bounds);
    Some(Line::Range { layer, query, tag })
}

// `LAYER BOX [tag NUM]`
fn inside(mut words: Words<'_>) -> Option<Line<'_>>
    ensures { said_or_bad result ≡ asked (box_query_of (λ b. RawQuery.Inside b) words.entry) }
{
    let layer = words.next()?;
    let (bounds, tag) = tagged_bounds(words)?;
    let query = RawQuery::Inside(bounds);
    Some(Line::Range { layer, query, tag })
}

// `LAYER BOX [tag NUM]`
fn around(mut words: Words<'_>) -> Option<Line<'_>>
    ensures { said_or_bad result ≡ asked (box_query_of (λ b. RawQuery.Around b) words.entry) }
{
    let layer = words.next()?;
    let (bounds, tag) = tagged_bounds(words)?;
    let query = RawQuery::Around(bounds);
    Some(Line::Range { layer, query, tag })
}

// `LAYER PT [tag NUM]`
fn point(mut words: Words<'_>) -> Option<Line<'_>>
    ensures { said_or_bad result ≡ asked (point_query_of words.entry) }
{
    let layer = words.next()?;
    let (coordinates, tag) = tagged_coordinates(words)?;
    let query = RawQuery::Point(position_of(coordinates.as_slice())?);
    Some(Line::Range { layer, query, tag })
}

// `LAYER NUM PT`
fn nearest(mut words: Words<'_>) -> Option<Line<'_>>
    ensures { said_or_bad result ≡ asked (nearest_of words.entry) }
{
    let layer = words.next()?;
    let k = number(words.next()?)?;
    let point = position(words)?;
    Some(Line::Nearest { layer, k, point })
}

// `LAYER LAYER [NUM]`
fn join(mut words: Words<'_>) -> Option<Line<'_>>
    ensures { said_or_bad result ≡ asked (join_of words.entry) }
{
    let first = words.next()?;
    let second = words.next()?;
    let Some(word) = words.next() else {
        return Some(Line::Join {
            first,
            second,
            within: 0,
        });
    };
    let within = number(word)?;
    if words.is_done() {
        Some(Line::Join {
            first,
            second,
            within,
        })
    } else {
        None
    }
}

// No further word.
fn layers(mut words: Words<'_>) -> Option<Line<'_>>
    ensures { said_or_bad result ≡ asked (alone_of Layers words.entry) }
{
    match words.next() {
        None => Some(Line::Layers),
        Some(_) => None,
    }
}

// No further word.
fn dump(mut words: Words<'_>) -> Option<Line<'_>>
    ensures { said_or_bad result ≡ asked (alone_of Dump words.entry) }
{
    match words.next() {
        None => Some(Line::Dump),
        Some(_) => None,
    }
}

// No further word.
fn check(mut words: Words<'_>) -> Option<Line<'_>>
    ensures { said_or_bad result ≡ asked (alone_of Check words.entry) }
{
    match words.next() {
        None => Some(Line::Check),
        Some(_) => None,
    }
}

// No further word.
fn reopen(mut words: Words<'_>) -> Option<Line<'_>>
    ensures { said_or_bad result ≡ asked (alone_of Reopen words.entry) }
{
    match words.next() {
        None => Some(Line::Reopen),
        Some(_) => None,
    }
}

// The box that all these words are.
fn bounds(words: Words<'_>) -> Option<RawBox>
    ensures { result ≡ box_of words.entry }
{
    bounds_of(coordinates(words)?.as_slice())
}

// The box that the words before `tag` are, and the tag behind it.
fn tagged_bounds(words: Words<'_>) -> Option<(RawBox, Option<u32>)>
    ensures { result ≡ and_tag box_of words.entry }
{
    let (coordinates, tag) = tagged_coordinates(words)?;
    Some((bounds_of(coordinates.as_slice())?, tag))
}

// The box of four or six coordinates: all lows, and then all highs.
fn bounds_of(coordinates: &[i32]) -> Option<RawBox>
    ensures { result ≡ box_from coordinates.now }
{
    match *coordinates {
        [a, b, c, d] => Some(RawBox::Two([a, b], [c, d])),
        [a, b, c, d, e, f] => Some(RawBox::Three([a, b, c], [d, e, f])),
        _ => None,
    }
}

// The point that all these words are.
fn position(words: Words<'_>) -> Option<RawPoint>
    ensures { result ≡ point_of words.entry }
{
    position_of(coordinates(words)?.as_slice())
}

// The point of two or three coordinates.
fn position_of(coordinates: &[i32]) -> Option<RawPoint>
    ensures { result ≡ point_from coordinates.now }
{
    match *coordinates {
        [a, b] => Some(RawPoint::Two([a, b])),
        [a, b, c] => Some(RawPoint::Three([a, b, c])),
        _ => None,
    }
}

// The coordinates that the words before `tag` are, of which there are at most six, and the tag behind them.
fn tagged_coordinates(mut words: Words<'_>) -> Option<(ArrayVec<i32, MOST_BOUNDS>, Option<u32>)>
    ensures some { IfSome result (λ found.
        (coordinates_of (before_tag words.entry) ≡ Some found.0.items)
        × (tag_behind (from_tag words.entry) ≡ Some found.1)) }
    ensures none { IfNone result (IfSome (coordinates_of (before_tag words.entry)) (λ bounds.
        (MOST_BOUNDS < length bounds) ⊎ (tag_behind (from_tag words.entry) ≡ None))) }
{
    let mut bounds = ArrayVec::new();
    while let Some(word) = words.next() {
        if word == b"tag".as_slice() {
            return Some((bounds, Some(tag(words)?)));
        }
        bounds.try_push(coordinate(word)?).ok()?;
    }
    Some((bounds, None))
}

// The tag that the one word after `tag` is.
fn tag(mut words: Words<'_>) -> Option<u32>
    ensures { option_map (λ t. Some t) result ≡ tag_behind (codes "tag" ∷ words.entry) }
{
    let number = number(words.next()?)?;
    if words.is_done() {
        u32::try_from(number).ok()
    } else {
        None
    }
}

// The coordinates that the words are, of which there are at most six.
fn coordinates(mut words: Words<'_>) -> Option<ArrayVec<i32, MOST_BOUNDS>>
    ensures some { IfSome result (λ bounds. coordinates_of words.entry ≡ Some bounds.items) }
    ensures none { IfNone result
        (IfSome (coordinates_of words.entry) (λ bounds. MOST_BOUNDS < length bounds)) }
{
    let mut bounds = ArrayVec::new();
    while let Some(word) = words.next() {
        bounds.try_push(coordinate(word)?).ok()?;
    }
    Some(bounds)
}
