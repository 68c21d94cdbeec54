//! Where the parts of an object stand in a row.

use arrayvec::ArrayVec;

// How many bytes a name that is known has at most, without its underscores.
const MOST_NAME: usize = 4;

// How many columns an object takes at most.
const MOST_PLACES: usize = 8;

/// An axis.
#[derive(Clone, Copy, PartialEq, Eq, Debug)]
pub(crate) enum Axis {
    /// The first.
    X,
    /// The second.
    Y,
    /// The third, which not all texts have.
    Z,
}

/// What a column holds of an object.
#[derive(Clone, Copy, PartialEq, Eq, Debug)]
pub(crate) enum Role {
    /// The identifier.
    Id,
    /// The low of an axis.
    Low(Axis),
    /// The high of an axis.
    High(Axis),
    /// A point's coordinate on an axis.
    At(Axis),
    /// The tag.
    Tag,
}

impl Role {
    /// What a column of this name holds. Capitals and underscores are no matter.
    pub fn of(name: &[u8]) -> Option<Role> {
        let mut plain: ArrayVec<u8, MOST_NAME> = ArrayVec::new();
        for byte in name {
            if *byte != b'_' && plain.try_push(byte.to_ascii_lowercase()).is_err() {
                return None;
            }
        }
        match plain.as_slice() {
            b"id" => Some(Role::Id),
            b"tag" => Some(Role::Tag),
            b"x" => Some(Role::At(Axis::X)),
            b"y" => Some(Role::At(Axis::Y)),
            b"z" => Some(Role::At(Axis::Z)),
            b"minx" | b"xmin" => Some(Role::Low(Axis::X)),
            b"miny" | b"ymin" => Some(Role::Low(Axis::Y)),
            b"minz" | b"zmin" => Some(Role::Low(Axis::Z)),
            b"maxx" | b"xmax" => Some(Role::High(Axis::X)),
            b"maxy" | b"ymax" => Some(Role::High(Axis::Y)),
            b"maxz" | b"zmax" => Some(Role::High(Axis::Z)),
            _ => None,
        }
    }

    /// Its name.
    pub fn name(self) -> &'static str {
        match self {
            Role::Id => "id",
            Role::Tag => "tag",
            Role::At(Axis::X) => "x",
            Role::At(Axis::Y) => "y",
            Role::At(Axis::Z) => "z",
            Role::Low(Axis::X) => "minx",
            Role::Low(Axis::Y) => "miny",
            Role::Low(Axis::Z) => "minz",
            Role::High(Axis::X) => "maxx",
            Role::High(Axis::Y) => "maxy",
            Role::High(Axis::Z) => "maxz",
        }
    }
}

/// Where the lows and the highs of a box stand.
#[derive(Clone, Copy, PartialEq, Eq, Debug)]
pub(crate) enum BoxPlaces {
    /// Two axes.
    Two([usize; 2], [usize; 2]),
    /// Three axes.
    Three([usize; 3], [usize; 3]),
}

/// Where the parts of an object stand.
#[derive(Clone, Copy, PartialEq, Eq, Debug)]
pub(crate) struct Places {
    /// The identifier, if a column has it.
    pub id: Option<usize>,
    /// The box.
    pub bounds: BoxPlaces,
    /// The tag, if a column has it.
    pub tag: Option<usize>,
}

impl Places {
    /// The places of a list behind that of the identifier: a point, or a box with or without a tag.
    pub fn in_order(id: Option<usize>, list: &[usize]) -> Option<Places> {
        let (bounds, tag) = match *list {
            [x, y] => (BoxPlaces::Two([x, y], [x, y]), None),
            [x, y, z] => (BoxPlaces::Three([x, y, z], [x, y, z]), None),
            [a, b, c, d] => (BoxPlaces::Two([a, b], [c, d]), None),
            [a, b, c, d, tag] => (BoxPlaces::Two([a, b], [c, d]), Some(tag)),
            [a, b, c, d, e, f] => (BoxPlaces::Three([a, b, c], [d, e, f]), None),
            [a, b, c, d, e, f, tag] => (BoxPlaces::Three([a, b, c], [d, e, f]), Some(tag)),
            _ => return None,
        };
        Some(Places { id, bounds, tag })
    }

    /// Ok where no two parts stand at one place, other than the low and the high of an axis, and else such a
    /// place.
    pub fn are_apart(&self) -> Result<(), usize> {
        let mut seen: ArrayVec<usize, MOST_PLACES> = ArrayVec::new();
        match self.bounds {
            BoxPlaces::Two(low, high) => {
                add_span(&mut seen, low[0], high[0])?;
                add_span(&mut seen, low[1], high[1])?;
            }
            BoxPlaces::Three(low, high) => {
                add_span(&mut seen, low[0], high[0])?;
                add_span(&mut seen, low[1], high[1])?;
                add_span(&mut seen, low[2], high[2])?;
            }
        }
        add_some(&mut seen, self.id)?;
        add_some(&mut seen, self.tag)
    }
}

// Adds a place, which is an error where it is there.
fn add(seen: &mut ArrayVec<usize, MOST_PLACES>, place: usize) -> Result<(), usize> {
    if seen.as_slice().contains(&place) || seen.try_push(place).is_err() {
        Err(place)
    } else {
        Ok(())
    }
}

// Adds a place, if there is one.
fn add_some(seen: &mut ArrayVec<usize, MOST_PLACES>, place: Option<usize>) -> Result<(), usize> {
    match place {
        Some(place) => add(seen, place),
        None => Ok(()),
    }
}

// Adds the places of a low and a high, which may be the same.
fn add_span(seen: &mut ArrayVec<usize, MOST_PLACES>, low: usize, high: usize) -> Result<(), usize> {
    add(seen, low)?;
    if low == high { Ok(()) } else { add(seen, high) }
}

/// The columns that a header has named so far.
#[derive(Clone, Copy)]
pub(crate) struct Named {
    id: Option<usize>,
    tag: Option<usize>,
    low: [Option<usize>; 3],
    high: [Option<usize>; 3],
    at: [Option<usize>; 3],
}

impl Named {
    /// None.
    pub fn new() -> Named {
        Named {
            id: None,
            tag: None,
            low: [None; 3],
            high: [None; 3],
            at: [None; 3],
        }
    }

    /// Notes where a part stands, and answers whether it is the first place of it.
    pub fn set(&mut self, role: Role, place: usize) -> bool {
        let slot = match role {
            Role::Id => &mut self.id,
            Role::Tag => &mut self.tag,
            Role::Low(axis) => slot(&mut self.low, axis),
            Role::High(axis) => slot(&mut self.high, axis),
            Role::At(axis) => slot(&mut self.at, axis),
        };
        slot.replace(place).is_none()
    }

    /// Where the parts of a box stand, or of a point where no part of a box is named. An error is the part
    /// that lacks.
    pub fn places(&self) -> Result<Places, Role> {
        let (id, tag) = (self.id, self.tag);
        let bounds = if self.has_box() {
            self.box_places()?
        } else {
            self.point_places()?
        };
        Ok(Places { id, bounds, tag })
    }

    // Whether a part of a box is named.
    fn has_box(&self) -> bool {
        self.low.iter().any(|place| place.is_some())
            || self.high.iter().any(|place| place.is_some())
    }

    fn box_places(&self) -> Result<BoxPlaces, Role> {
        let low = [
            self.low[0].ok_or(Role::Low(Axis::X))?,
            self.low[1].ok_or(Role::Low(Axis::Y))?,
        ];
        let high = [
            self.high[0].ok_or(Role::High(Axis::X))?,
            self.high[1].ok_or(Role::High(Axis::Y))?,
        ];
        match (self.low[2], self.high[2]) {
            (None, None) => Ok(BoxPlaces::Two(low, high)),
            (Some(_), None) => Err(Role::High(Axis::Z)),
            (None, Some(_)) => Err(Role::Low(Axis::Z)),
            (Some(z), Some(top)) => Ok(BoxPlaces::Three(
                [low[0], low[1], z],
                [high[0], high[1], top],
            )),
        }
    }

    fn point_places(&self) -> Result<BoxPlaces, Role> {
        let (x, y) = match (self.at[0], self.at[1]) {
            (Some(x), Some(y)) => (x, y),
            (Some(_), None) => return Err(Role::At(Axis::Y)),
            (None, Some(_)) => return Err(Role::At(Axis::X)),
            (None, None) => return Err(Role::Low(Axis::X)),
        };
        match self.at[2] {
            Some(z) => Ok(BoxPlaces::Three([x, y, z], [x, y, z])),
            None => Ok(BoxPlaces::Two([x, y], [x, y])),
        }
    }
}

// The slot of an axis.
fn slot(slots: &mut [Option<usize>; 3], axis: Axis) -> &mut Option<usize> {
    match axis {
        Axis::X => &mut slots[0],
        Axis::Y => &mut slots[1],
        Axis::Z => &mut slots[2],
    }
}
