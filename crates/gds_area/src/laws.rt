ghost use Rattle.std.specs.Prelude.{◌≡◌};
ghost use Rattle.gds_area.specs.declared.area.Area.{Area};
ghost use Rattle.gds_area.specs.declared.placement.Move.{Move};
ghost use Rattle.gds_area.specs.declared.placement.Vector.{Vector};
ghost use Rattle.gds_area.specs.Moves.{moved, moved_area, composed};

/// What is in a structure that is moved itself is first moved as it is in there, and then as that
/// structure is. It does nothing: its contract is the law.
pub fn composed_moves()
    ensures points { (outer inner : Move) (v : Vector) → moved (composed outer inner) v ≡ moved outer (moved inner v) }
    ensures areas { (outer inner : Move) (a : Area)
        → moved_area (composed outer inner) a ≡ moved_area outer (moved_area inner a) }
{}
