ghost use Rattle.std.specs.Prelude.{◌≡◌};
ghost use Rattle.gds_read.specs.declared.grammar.Place.TheVariants.{Library};
ghost use Rattle.gds_read.specs.Grammar.{element_begun, is_complete, is_allowed_inside};
ghost use Rattle.gds_read.specs.Grammar.{seen_with, is_allowed, has_wrong_length, follows};

use gds_record::RecordType;

/// The kinds of elements that the grammar distinguishes.
#[derive(Clone, Copy, Debug, PartialEq, Eq)]
pub enum ElementKind {
    Boundary,
    Path,
    Text,
    /// A reference, a node or a box, of which the grammar asks nothing.
    Other,
}

/// Which records of an element were met that it may have once.
#[derive(Clone, Copy, Debug, PartialEq, Eq)]
pub struct Seen {
    pub layer: bool,
    pub xy: bool,
    pub width: bool,
    pub path_type: bool,
    pub string: bool,
}

/// A place between two records of a library: which records may follow.
#[derive(Clone, Copy, Debug, PartialEq, Eq)]
pub enum Place {
    /// Before HEADER.
    Start,
    /// After HEADER.
    Opened,
    /// In the library, outside its structures.
    Library {
        named: bool,
        units: bool,
        structures: bool,
    },
    /// Between BGNSTR and STRNAME.
    Naming,
    /// In a structure, outside its elements.
    Structure,
    Element {
        kind: ElementKind,
        seen: Seen,
    },
    /// After ENDLIB.
    Ended,
}

const NOTHING: Seen = Seen {
    layer: false,
    xy: false,
    width: false,
    path_type: false,
    string: false,
};

// The element that a record begins.
fn begun(inner: RecordType) -> Option<ElementKind>
    ensures { result ≡ element_begun inner }
{
    match inner {
        RecordType::Boundary => Some(ElementKind::Boundary),
        RecordType::Path => Some(ElementKind::Path),
        RecordType::Text => Some(ElementKind::Text),
        RecordType::SRef | RecordType::ARef | RecordType::Node | RecordType::Box => Some(
            ElementKind::Other,
        ),
        _ => None,
    }
}

// Whether an element has the records that it must have.
fn complete(kind: ElementKind, seen: Seen) -> bool
    ensures { result ≡ is_complete kind seen }
{
    match kind {
        ElementKind::Boundary | ElementKind::Path => seen.layer && seen.xy,
        ElementKind::Text => seen.layer && seen.xy && seen.string,
        ElementKind::Other => true,
    }
}

fn allowed_inside(kind: ElementKind, seen: Seen, inner: RecordType) -> bool
    ensures { result ≡ is_allowed_inside kind seen inner }
{
    match inner {
        RecordType::Layer => kind == ElementKind::Other || !seen.layer,
        RecordType::Xy => kind == ElementKind::Other || !seen.xy,
        RecordType::Width => kind == ElementKind::Text || kind == ElementKind::Other || !seen.width,
        RecordType::PathType => kind == ElementKind::Text
            || kind == ElementKind::Other
            || !seen.path_type,
        RecordType::StringText => kind != ElementKind::Text || !seen.string,
        RecordType::DataType
        | RecordType::TextType
        | RecordType::SName
        | RecordType::ColRow
        | RecordType::Presentation
        | RecordType::STrans
        | RecordType::Mag
        | RecordType::Angle
        | RecordType::PropAttr
        | RecordType::PropValue => true,
        RecordType::EndEl => complete(kind, seen),
        _ => false,
    }
}

fn with_seen(seen: Seen, inner: RecordType) -> Seen
    ensures { result ≡ seen_with seen inner }
{
    match inner {
        RecordType::Layer => Seen {
            layer: true,
            ..seen
        },
        RecordType::Xy => Seen { xy: true, ..seen },
        RecordType::Width => Seen {
            width: true,
            ..seen
        },
        RecordType::PathType => Seen {
            path_type: true,
            ..seen
        },
        RecordType::StringText => Seen {
            string: true,
            ..seen
        },
        _ => seen,
    }
}

/// Whether the grammar allows a record of the table at a place.
pub fn allowed(place: Place, inner: RecordType) -> bool
    ensures { result ≡ is_allowed place inner }
{
    match (place, inner) {
        (Place::Start, RecordType::Header) => true,
        (Place::Opened, RecordType::BgnLib) => true,
        (
            Place::Library {
                named,
                structures,
                ..
            },
            RecordType::LibName,
        ) => !named && !structures,
        (Place::Library { units, .. }, RecordType::Units) => !units,
        (Place::Library { units, .. }, RecordType::BgnStr) => units,
        (Place::Library { units, .. }, RecordType::EndLib) => units,
        (Place::Naming, RecordType::StrName) => true,
        (Place::Structure, RecordType::EndStr) => true,
        (Place::Structure, _) => begun(inner).is_some(),
        (Place::Element { kind, seen }, _) => allowed_inside(kind, seen, inner),
        _ => false,
    }
}

/// Whether a record that is allowed at a place has data of a length that it can't have there.
pub fn wrong_length(place: Place, inner: RecordType, size: usize) -> bool
    ensures { result ≡ has_wrong_length place inner size }
{
    match (place, inner) {
        (_, RecordType::Layer | RecordType::PathType) => size != 2,
        (_, RecordType::Width) => size != 4,
        (_, RecordType::Units) => size != 16,
        (
            Place::Element {
                kind: ElementKind::Text,
                ..
            },
            RecordType::Xy,
        ) => size != 8,
        (_, RecordType::Xy) => size == 0 || size % 8 != 0,
        _ => false,
    }
}

// The place after a record inside a library.
fn after_in_library(named: bool, units: bool, structures: bool, inner: RecordType) -> Place
    ensures { result ≡ follows (Library named units structures) inner }
{
    match inner {
        RecordType::LibName => Place::Library {
            named: true,
            units,
            structures,
        },
        RecordType::Units => Place::Library {
            named,
            units: true,
            structures,
        },
        RecordType::BgnStr => Place::Naming,
        _ => Place::Ended,
    }
}

/// The place after a record that is allowed at a place.
pub fn after(place: Place, inner: RecordType) -> Place
    ensures { result ≡ follows place inner }
{
    match (place, inner) {
        (Place::Start, _) => Place::Opened,
        (Place::Opened, _) => Place::Library {
            named: false,
            units: false,
            structures: false,
        },
        (
            Place::Library {
                named,
                units,
                structures,
            },
            _,
        ) => after_in_library(named, units, structures, inner),
        (Place::Naming, _) => Place::Structure,
        (Place::Structure, _) => match begun(inner) {
            Some(kind) => Place::Element {
                kind,
                seen: NOTHING,
            },
            None => Place::Library {
                named: true,
                units: true,
                structures: true,
            },
        },
        (Place::Element { .. }, RecordType::EndEl) => Place::Structure,
        (Place::Element { kind, seen }, _) => Place::Element {
            kind,
            seen: with_seen(seen, inner),
        },
        (Place::Ended, _) => Place::Ended,
    }
}
