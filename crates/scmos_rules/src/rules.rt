ghost use Rattle.std.specs.Prelude.{◌≡◌};
ghost use Rattle.scmos_rules.specs.Numbers.{numbers_of};
ghost use Rattle.scmos_rules.specs.declared.rules.Deck.TheVariants.{Plain, Taps};

use crate::RuleNo;
use std::marker::Model;

/// A set of rules that a layout is checked by.
#[derive(Clone, Copy, Debug, PartialEq, Eq)]
pub enum Deck {
    /// The rules of a cell without taps.
    Plain,
    /// Those of a cell with taps of the well and of the substrate.
    Taps,
}

const PLAIN: [RuleNo; 26] = [
    RuleNo::N1_1,
    RuleNo::N2_1,
    RuleNo::N2_2,
    RuleNo::N2_3,
    RuleNo::N3_1,
    RuleNo::N3_2,
    RuleNo::N3_3,
    RuleNo::N3_4,
    RuleNo::N3_5,
    RuleNo::N4_2,
    RuleNo::N5_1,
    RuleNo::N5_2,
    RuleNo::N5_3,
    RuleNo::N5_4,
    RuleNo::N6_2,
    RuleNo::N7_1,
    RuleNo::N7_2,
    RuleNo::N7_3,
    RuleNo::N8_1,
    RuleNo::N8_2,
    RuleNo::N8_3,
    RuleNo::N8_4,
    RuleNo::N8_5,
    RuleNo::N9_1,
    RuleNo::N9_2,
    RuleNo::N9_3,
];

const TAPS: [RuleNo; 27] = [
    RuleNo::N1_1,
    RuleNo::N2_1,
    RuleNo::N2_2,
    RuleNo::N2_3,
    RuleNo::N2_4,
    RuleNo::N3_1,
    RuleNo::N3_2,
    RuleNo::N3_3,
    RuleNo::N3_4,
    RuleNo::N3_5,
    RuleNo::N4_2,
    RuleNo::N5_1,
    RuleNo::N5_2,
    RuleNo::N5_3,
    RuleNo::N5_4,
    RuleNo::N6_2,
    RuleNo::N7_1,
    RuleNo::N7_2,
    RuleNo::N7_3,
    RuleNo::N8_1,
    RuleNo::N8_2,
    RuleNo::N8_3,
    RuleNo::N8_4,
    RuleNo::N8_5,
    RuleNo::N9_1,
    RuleNo::N9_2,
    RuleNo::N9_3,
];

/// The rules of a deck. Their values are those of the table of rules, in grid units. Contracts see
/// them as the deck.
#[derive(Clone, Copy, Debug, PartialEq, Eq)]
pub struct Rules {
    deck: Deck,
}

impl Model for Rules {
    ghost use Rattle.scmos_rules.specs.declared.rules.Deck.{Deck as DeckOf};

    ghost Value = { DeckOf };

    ghost view = { λ r. r.deck };

    ghost inverse = { λ deck. record { deck = deck } };
}

impl Rules {
    /// The 26 rules of a cell without taps.
    pub fn profile() -> Rules
        ensures { result ≡ Plain }
    {
        Rules { deck: Deck::Plain }
    }

    /// The 27 rules of a cell with taps.
    pub fn with_taps() -> Rules
        ensures { result ≡ Taps }
    {
        Rules { deck: Deck::Taps }
    }

    /// Which deck the rules are.
    pub fn deck(&self) -> Deck
        ensures { result ≡ self.now }
    {
        self.deck
    }

    /// The numbers of the rules, in the table's order.
    pub fn numbers(&self) -> &'static [RuleNo]
        ensures { result.now ≡ numbers_of self.now }
    {
        match self.deck {
            Deck::Plain => &PLAIN,
            Deck::Taps => &TAPS,
        }
    }
}
