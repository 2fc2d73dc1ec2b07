ghost use Rattle.std.specs.Prelude.{◌≡◌};
ghost use Rattle.scmos_rules.specs.Numbers.{text_of};

/// The numbers of the rules, after those of MOSIS SCMOS: `N2_3` is rule 2.3. They are in the order of
/// the table of rules.
#[derive(Clone, Copy, Debug, PartialEq, Eq, PartialOrd, Ord)]
pub enum RuleNo {
    /// Width of the well.
    N1_1,
    /// Width of active.
    N2_1,
    /// Spacing of active.
    N2_2,
    /// The well around P active, and its distance to N active.
    N2_3,
    /// Distances of taps to the end of the well.
    N2_4,
    /// Width of poly.
    N3_1,
    /// Spacing of poly.
    N3_2,
    /// Poly past the end of a gate.
    N3_3,
    /// Active past the side of a gate.
    N3_4,
    /// Distance of field poly to active.
    N3_5,
    /// The selects around their active.
    N4_2,
    /// Size of a contact (also 6.1).
    N5_1,
    /// Poly around a contact, and what a contact stands on.
    N5_2,
    /// Spacing of contacts (also 6.3).
    N5_3,
    /// Distance of a contact to a gate (also 6.4).
    N5_4,
    /// Active around a contact.
    N6_2,
    /// Width of metal1.
    N7_1,
    /// Spacing of metal1.
    N7_2,
    /// Metal1 around a contact.
    N7_3,
    /// Size of a via.
    N8_1,
    /// Spacing of vias.
    N8_2,
    /// Metal1 around a via.
    N8_3,
    /// Distance of a via to a contact.
    N8_4,
    /// Edges of poly and of active near a via.
    N8_5,
    /// Width of metal2.
    N9_1,
    /// Spacing of metal2.
    N9_2,
    /// Metal2 around a via.
    N9_3,
}

impl RuleNo {
    /// The number as it is printed, such as `2.3`.
    pub fn text(self) -> &'static [u8]
        ensures { result.now ≡ text_of self }
    {
        match self {
            RuleNo::N1_1 => b"1.1",
            RuleNo::N2_1 => b"2.1",
            RuleNo::N2_2 => b"2.2",
            RuleNo::N2_3 => b"2.3",
            RuleNo::N2_4 => b"2.4",
            RuleNo::N3_1 => b"3.1",
            RuleNo::N3_2 => b"3.2",
            RuleNo::N3_3 => b"3.3",
            RuleNo::N3_4 => b"3.4",
            RuleNo::N3_5 => b"3.5",
            RuleNo::N4_2 => b"4.2",
            RuleNo::N5_1 => b"5.1",
            RuleNo::N5_2 => b"5.2",
            RuleNo::N5_3 => b"5.3",
            RuleNo::N5_4 => b"5.4",
            RuleNo::N6_2 => b"6.2",
            RuleNo::N7_1 => b"7.1",
            RuleNo::N7_2 => b"7.2",
            RuleNo::N7_3 => b"7.3",
            RuleNo::N8_1 => b"8.1",
            RuleNo::N8_2 => b"8.2",
            RuleNo::N8_3 => b"8.3",
            RuleNo::N8_4 => b"8.4",
            RuleNo::N8_5 => b"8.5",
            RuleNo::N9_1 => b"9.1",
            RuleNo::N9_2 => b"9.2",
            RuleNo::N9_3 => b"9.3",
        }
    }
}
