ghost use Rattle.std.specs.Prelude.{◌≡◌};
ghost use Rattle.gds_record.specs.Types.{type_numbered, number_of, data_type_of, data_number_of};

/// The data types of records, as the Stream format numbers them.
#[derive(Clone, Copy, Debug, PartialEq, Eq)]
pub enum DataType {
    NoData,
    BitArray,
    /// Two-byte signed integers.
    Short,
    /// Four-byte signed integers.
    Long,
    /// Eight-byte reals.
    Real,
    /// Characters, padded to an even length by one zero byte.
    Text,
}

/// The record types of the table, in the order of the Stream format's description. Each line says the
/// type and the data type as two bytes in hexadecimal, as the format writes them.
#[derive(Clone, Copy, Debug, PartialEq, Eq)]
pub enum RecordType {
    // File header records.
    /// 00 02: the version of the format.
    Header,
    /// 01 02: the times of the library.
    BgnLib,
    /// 02 06: the name of the library.
    LibName,
    /// 03 05: a database unit in user units, and in metres.
    Units,
    // File tail record.
    /// 04 00: the end of the library.
    EndLib,
    // Structure header records.
    /// 05 02: the times of the structure.
    BgnStr,
    /// 06 06: the name of the structure.
    StrName,
    // Structure tail record.
    /// 07 00: the end of the structure.
    EndStr,
    // Element header records.
    /// 08 00: a filled polygon.
    Boundary,
    /// 09 00: a line with a width.
    Path,
    /// 0A 00: a reference to a structure.
    SRef,
    /// 0B 00: an array of references.
    ARef,
    /// 0C 00: a text.
    Text,
    /// 15 00: an electrical net.
    Node,
    /// 2D 00: a box.
    Box,
    // Element contents records.
    /// 0D 02: the layer.
    Layer,
    /// 0E 02: the data type of a boundary or path.
    DataType,
    /// 0F 03: the width of a path or text.
    Width,
    /// 10 03: points, each an x and a y.
    Xy,
    /// 12 06: the structure that is referred to.
    SName,
    /// 13 02: columns and rows of an array.
    ColRow,
    /// 16 02: the type of a text.
    TextType,
    /// 17 01: font and justification of a text.
    Presentation,
    /// 19 06: the characters of a text (STRING).
    StringText,
    /// 1A 01: reflection and absolute flags.
    STrans,
    /// 1B 05: a magnification.
    Mag,
    /// 1C 05: an angle.
    Angle,
    /// 21 02: the form of a path's ends.
    PathType,
    /// 2B 02: the number of a property.
    PropAttr,
    /// 2C 06: the value of a property.
    PropValue,
    // Element tail record.
    /// 11 00: the end of the element.
    EndEl,
}

impl DataType {
    /// The number of the data type, the fourth byte of a record.
    pub fn number(self) -> u8
        ensures { result ≡ data_number_of self }
    {
        match self {
            DataType::NoData => 0,
            DataType::BitArray => 1,
            DataType::Short => 2,
            DataType::Long => 3,
            DataType::Real => 5,
            DataType::Text => 6,
        }
    }
}

impl RecordType {
    /// The record type that has a number, if the table has it.
    pub fn numbered(number: u8) -> Option<RecordType>
        ensures { result ≡ type_numbered number }
    {
        match number {
            0x00 => Some(RecordType::Header),
            0x01 => Some(RecordType::BgnLib),
            0x02 => Some(RecordType::LibName),
            0x03 => Some(RecordType::Units),
            0x04 => Some(RecordType::EndLib),
            0x05 => Some(RecordType::BgnStr),
            0x06 => Some(RecordType::StrName),
            0x07 => Some(RecordType::EndStr),
            0x08 => Some(RecordType::Boundary),
            0x09 => Some(RecordType::Path),
            0x0a => Some(RecordType::SRef),
            0x0b => Some(RecordType::ARef),
            0x0c => Some(RecordType::Text),
            0x0d => Some(RecordType::Layer),
            0x0e => Some(RecordType::DataType),
            0x0f => Some(RecordType::Width),
            0x10 => Some(RecordType::Xy),
            0x11 => Some(RecordType::EndEl),
            0x12 => Some(RecordType::SName),
            0x13 => Some(RecordType::ColRow),
            0x15 => Some(RecordType::Node),
            0x16 => Some(RecordType::TextType),
            0x17 => Some(RecordType::Presentation),
            0x19 => Some(RecordType::StringText),
            0x1a => Some(RecordType::STrans),
            0x1b => Some(RecordType::Mag),
            0x1c => Some(RecordType::Angle),
            0x21 => Some(RecordType::PathType),
            0x2b => Some(RecordType::PropAttr),
            0x2c => Some(RecordType::PropValue),
            0x2d => Some(RecordType::Box),
            _ => None,
        }
    }

    /// The number of the record type, the third byte of a record.
    pub fn number(self) -> u8
        ensures { result ≡ number_of self }
    {
        match self {
            RecordType::Header => 0x00,
            RecordType::BgnLib => 0x01,
            RecordType::LibName => 0x02,
            RecordType::Units => 0x03,
            RecordType::EndLib => 0x04,
            RecordType::BgnStr => 0x05,
            RecordType::StrName => 0x06,
            RecordType::EndStr => 0x07,
            RecordType::Boundary => 0x08,
            RecordType::Path => 0x09,
            RecordType::SRef => 0x0a,
            RecordType::ARef => 0x0b,
            RecordType::Text => 0x0c,
            RecordType::Node => 0x15,
            RecordType::Box => 0x2d,
            RecordType::Layer => 0x0d,
            RecordType::DataType => 0x0e,
            RecordType::Width => 0x0f,
            RecordType::Xy => 0x10,
            RecordType::SName => 0x12,
            RecordType::ColRow => 0x13,
            RecordType::TextType => 0x16,
            RecordType::Presentation => 0x17,
            RecordType::StringText => 0x19,
            RecordType::STrans => 0x1a,
            RecordType::Mag => 0x1b,
            RecordType::Angle => 0x1c,
            RecordType::PathType => 0x21,
            RecordType::PropAttr => 0x2b,
            RecordType::PropValue => 0x2c,
            RecordType::EndEl => 0x11,
        }
    }

    /// The data type that each record of this type has.
    pub fn data_type(self) -> DataType
        ensures { result ≡ data_type_of self }
    {
        match self {
            RecordType::EndLib
            | RecordType::EndStr
            | RecordType::Boundary
            | RecordType::Path
            | RecordType::SRef
            | RecordType::ARef
            | RecordType::Text
            | RecordType::Node
            | RecordType::Box
            | RecordType::EndEl => DataType::NoData,
            RecordType::Presentation | RecordType::STrans => DataType::BitArray,
            RecordType::Header
            | RecordType::BgnLib
            | RecordType::BgnStr
            | RecordType::Layer
            | RecordType::DataType
            | RecordType::ColRow
            | RecordType::TextType
            | RecordType::PathType
            | RecordType::PropAttr => DataType::Short,
            RecordType::Width | RecordType::Xy => DataType::Long,
            RecordType::Units | RecordType::Mag | RecordType::Angle => DataType::Real,
            RecordType::LibName
            | RecordType::StrName
            | RecordType::SName
            | RecordType::StringText
            | RecordType::PropValue => DataType::Text,
        }
    }
}
