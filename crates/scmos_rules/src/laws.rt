// Laws that turn rules on cells into conditions on rectangles, and one on the list of broken rules. The calls do
// nothing: the contracts are the laws.
ghost use Rattle.std.specs.Prelude.{◌≡◌, List};
ghost use Rattle.box_geom.specs.declared.shape.Shape.{Shape};
ghost use Rattle.scmos_rules.specs.declared.rules.Deck.{Deck};
ghost use Rattle.scmos_rules.specs.declared.violation.Violation.{Violation};
ghost use Rattle.scmos_rules.specs.Violations.{AreViolations};
ghost use Rattle.scmos_rules.specs.Laws.{WidthLaw, SpacingLaw, TouchingLaw, SizeLaw};
ghost use Rattle.scmos_rules.specs.Laws.{SurroundLaw, MarkedSurroundLaw, AwayLaw, MarkedAwayLaw};

/// Where both sides of every rectangle are at least v, no cell fails width v.
pub fn width_law()
    ensures { WidthLaw }
{}

/// Where any two rectangles whose gaps in x and in y are both below v are joined by touching ones, and
/// all cells between their facing sides are covered, no cell fails spacing v; so where any two such
/// rectangles touch.
pub fn spacing_law()
    ensures joined { SpacingLaw }
    ensures touching { TouchingLaw }
{}

/// Where every rectangle is v by v and no two different ones touch, no cell fails size v.
pub fn size_law()
    ensures { SizeLaw }
{}

/// Where each rectangle of a list, grown by d, lies in one of another list, each cell that the first
/// list covers is surrounded by d of the second; so too for cells marked in the first list, and for
/// cells that are marked wherever the second list covers them.
pub fn surround_law()
    ensures covered { SurroundLaw }
    ensures marked { MarkedSurroundLaw }
{}

/// Where no rectangle of a list, grown by d, has a cell in common with one of another list, no cell that
/// the first list covers is within d of one of the second; so too for cells marked in the lists.
pub fn away_law()
    ensures covered { AwayLaw }
    ensures marked { MarkedAwayLaw }
{}

/// A layout has one list of broken rules, by each deck.
pub fn one_list()
    ensures { (deck : Deck) (s : List Shape) (vs ws : List Violation) → AreViolations deck s vs →
        AreViolations deck s ws → vs ≡ ws }
{}
