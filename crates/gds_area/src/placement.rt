// How a reference places a structure.
ghost use Rattle.std.specs.Prelude.{◌≡◌, ◌≤◌, ◌^◌, ℤ, pos, neg_ℤ, ◌+ℤ◌, ◌*ℤ◌, ◌≤ℤ◌};
ghost use Rattle.gds_area.specs.Moves.{faced, moved, quarter_more, both_turns};
ghost use Rattle.gds_area.specs.Moves.{seen_turn, differ, composed, IsWithin, IsNear};

/// A turn to the left.
#[derive(Clone, Copy, Debug, PartialEq, Eq)]
pub enum Turn {
    Zero,
    Quarter,
    Half,
    ThreeQuarters,
}

/// Mirrored about the x axis or not, then turned, then moved, in file units.
#[derive(Clone, Copy, Debug, PartialEq, Eq)]
pub struct Move {
    pub mirrored: bool,
    pub turn: Turn,
    pub x: i64,
    pub y: i64,
}

/// Not mirrored, not turned and not moved.
pub const STAYS: Move = Move {
    mirrored: false,
    turn: Turn::Zero,
    x: 0,
    y: 0,
};

/// Two coordinates.
#[derive(Clone, Copy, Debug, PartialEq, Eq)]
pub struct Vector {
    pub x: i128,
    pub y: i128,
}

// Two coordinates as a move mirrors and turns them.
fn faced(by: &Move, x: i64, y: i64) -> Vector
    ensures value { result ≡ faced by.now (record { x = x; y = y }) }
    ensures x { IsWithin 63 result.x }
    ensures y { IsWithin 63 result.y }
{
    let x = i128::from(x);
    let y = i128::from(y);
    match (by.turn, by.mirrored) {
        (Turn::Zero, false) => Vector { x, y },
        (Turn::Zero, true) => Vector { x, y: -y },
        (Turn::Quarter, false) => Vector { x: -y, y: x },
        (Turn::Quarter, true) => Vector { x: y, y: x },
        (Turn::Half, false) => Vector { x: -x, y: -y },
        (Turn::Half, true) => Vector { x: -x, y },
        (Turn::ThreeQuarters, false) => Vector { x: y, y: -x },
        (Turn::ThreeQuarters, true) => Vector { x: -y, y: -x },
    }
}

fn moved_to(faced: i128, by: i64) -> i128
    requires { IsWithin 63 faced }
    ensures value { result ≡ faced +ℤ (pos 2 *ℤ by) }
    ensures within { IsWithin 66 result }
{
    faced + 2 * i128::from(by)
}

/// A point in halves of a file unit, as a move takes it.
pub fn moved(by: &Move, x: i64, y: i64) -> Vector
    ensures value { result ≡ moved by.now (record { x = x; y = y }) }
    ensures x { IsWithin 66 result.x }
    ensures y { IsWithin 66 result.y }
{
    let faced = faced(by, x, y);
    Vector {
        x: moved_to(faced.x, by.x),
        y: moved_to(faced.y, by.y),
    }
}

fn quarter_more(turn: Turn) -> Turn
    ensures { result ≡ quarter_more turn }
{
    match turn {
        Turn::Zero => Turn::Quarter,
        Turn::Quarter => Turn::Half,
        Turn::Half => Turn::ThreeQuarters,
        Turn::ThreeQuarters => Turn::Zero,
    }
}

fn both_turns(first: Turn, second: Turn) -> Turn
    ensures { result ≡ both_turns first second }
{
    match first {
        Turn::Zero => second,
        Turn::Quarter => quarter_more(second),
        Turn::Half => quarter_more(quarter_more(second)),
        Turn::ThreeQuarters => quarter_more(quarter_more(quarter_more(second))),
    }
}

fn seen_turn(mirrored: bool, turn: Turn) -> Turn
    ensures { result ≡ seen_turn mirrored turn }
{
    match (mirrored, turn) {
        (true, Turn::Quarter) => Turn::ThreeQuarters,
        (true, Turn::ThreeQuarters) => Turn::Quarter,
        _ => turn,
    }
}

fn differ(first: bool, second: bool) -> bool
    ensures { result ≡ differ first second }
{
    if first { !second } else { second }
}

fn offset(faced: i128, by: i64) -> i64
    requires low { neg_ℤ (pos (2 ^ 62)) ≤ℤ (faced +ℤ by) }
    requires high { (faced +ℤ by) ≤ℤ pos (2 ^ 62) }
    ensures { result ≡ faced +ℤ by }
{
    (faced + i128::from(by)) as i64
}

/// The move of a structure inside another one, which is moved itself.
pub fn composed(outer: &Move, inner: &Move, levels: u8) -> Move
    requires levels { levels ≤ 16 }
    requires outer { IsNear levels outer.now }
    requires inner { IsNear 1 inner.now }
    ensures { result ≡ composed outer.now inner.now }
{
    let faced = faced(outer, inner.x, inner.y);
    Move {
        mirrored: differ(outer.mirrored, inner.mirrored),
        turn: both_turns(outer.turn, seen_turn(outer.mirrored, inner.turn)),
        x: offset(faced.x, outer.x),
        y: offset(faced.y, outer.y),
    }
}
