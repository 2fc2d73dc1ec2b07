ghost use Rattle.std.specs.Prelude.{refl, ◌≡◌, ◌≤◌, ◌<◌, ◌==◌, if◌then◌else◌, ℕ, All, IfSome, length};
ghost use Rattle.std.proofs.Common.{inr};
ghost use Rattle.cell_num.specs.declared.finger.Row.{Row as RowOf};
ghost use Rattle.row_trails.specs.Counts.{entry, flag};
ghost use Rattle.row_state.specs.Classes.{joined, least_chained};
ghost use Rattle.row_state.specs.Completion.{fingers_left};
ghost use Rattle.row_state.specs.Component.{component_trails, component_value, further_trails, has_finger};
ghost use Rattle.row_state.specs.ComponentLaw.{component_holds};
ghost use Rattle.row_state.specs.Start.{IsKind, IsState};
ghost use Rattle.row_state.specs.Tests.{left_of};
ghost use Rattle.row_state.specs.Trails.{end_of};

use crate::bound::are_above;
use crate::parity::{count_empty, odd_behind};
use crate::{COMPONENT_LOG, Kind, Kinds, RowBound, State};
use cell_num::{MOST_NETS, NetNo, Row};
use row_trails::{NETS, count_by_class, sum_trails};

/// The bound that counts trails in each class of nets that the fingers left chain: a walk that changes
/// from one class to another breaks.
#[derive(Clone, Copy, Debug)]
pub struct Component;

// Each net as a class of its own.
fn own_classes(nets: u32) -> [u8; NETS]
    requires { nets ≤ MOST_NETS }
    ensures { (u : ℕ) → u < nets → entry result u ≡ u }
{
    let mut classes = [0; NETS];
    for net in 0..nets {
        classes[net as usize] = net as u8;
    }
    classes
}

fn rename(classes: &mut [u8; NETS], high: u8, low: u8, nets: u32)
    requires { nets ≤ MOST_NETS }
    ensures { (u : ℕ) → u < nets → entry classes.new u ≡
        (if entry classes.old u == high then low else entry classes.old u) }
{
    for net in 0..nets as usize {
        classes[net] = if classes[net] == high {
            low
        } else {
            classes[net]
        };
    }
}

// Makes one class of those of the kind's ends.
fn join(classes: &mut [u8; NETS], kind: &Kind, nets: u32)
    requires few { nets ≤ MOST_NETS }
    requires kind { IsKind nets kind.now }
    ensures { (u : ℕ) → u < nets → entry classes.new u
        ≡ joined (entry classes.old kind.now.lo.0) (entry classes.old kind.now.hi.0) (entry classes.old u) }
{
    let lo = classes[kind.lo.0 as usize];
    let hi = classes[kind.hi.0 as usize];
    if lo != hi {
        rename(classes, lo.max(hi), lo.min(hi), nets);
    }
}

// The class of each net, by its least net.
fn classes(kinds: &[Kind], left: &[u32], nets: u32) -> [u8; NETS]
    requires few { nets ≤ MOST_NETS }
    requires kinds { All (IsKind nets) kinds.now }
    requires same { length left.now ≡ length kinds.now }
    ensures { (row : RowOf) (u : ℕ) → u < nets → entry result u
        ≡ least_chained (fingers_left row kinds.now left.now) u }
{
    let mut classes = own_classes(nets);
    for at in (0..kinds.len()).rev() {
        if left[at] > 0 {
            join(&mut classes, &kinds[at], nets);
        }
    }
    classes
}

// The classes that have a finger.
fn met_classes(kinds: &[Kind], left: &[u32], classes: &[u8; NETS], nets: u32) -> [bool; NETS]
    requires few { nets ≤ MOST_NETS }
    requires kinds { All (IsKind nets) kinds.now }
    requires same { length left.now ≡ length kinds.now }
    ensures { (row : RowOf) (h : ℕ) → flag result h
        ≡ has_finger (entry classes.now) (fingers_left row kinds.now left.now) h }
{
    let mut met = [false; NETS];
    for at in (0..kinds.len()).rev() {
        if left[at] > 0 {
            met[classes[kinds[at].lo.0 as usize] as usize] = true;
        }
    }
    met
}

// The trails beside the one that goes on from the open end, or that the walk begins with.
fn count_trails(kinds: &[Kind], left: &[u32], end: &Option<NetNo>, nets: u32) -> u32
    requires few { nets ≤ MOST_NETS }
    requires kinds { All (IsKind nets) kinds.now }
    requires same { length left.now ≡ length kinds.now }
    requires end { IfSome end.now (λ v. v.0 < nets) }
    ensures { (row : RowOf) → result ≡ further_trails nets end.now (fingers_left row kinds.now left.now) }
{
    let classes = classes(kinds, left, nets);
    let mut met = met_classes(kinds, left, &classes, nets);
    let odd = count_by_class(&classes, &odd_behind(kinds, left, end, nets), nets);
    match end {
        Some(open) => {
            let class = classes[open.0 as usize] as usize;
            met[class] = false;
            odd[class].saturating_sub(1) / 2 + sum_trails(&met, &odd, nets)
        }
        None => sum_trails(&met, &odd, nets).saturating_sub(1),
    }
}

fn count_trails_in(row: Row, state: &State, kinds: &Kinds) -> u32
    requires state { IsState kinds.now state.now }
    ensures { result ≡ component_trails row (end_of row state.now) (left_of row state.now) kinds.now }
{
    match row {
        Row::P => count_trails(
            kinds.p.as_slice(),
            state.p_left.as_slice(),
            &state.p_end,
            kinds.nets,
        ),
        Row::N => count_trails(
            kinds.n.as_slice(),
            state.n_left.as_slice(),
            &state.n_end,
            kinds.nets,
        ),
    }
}

#[tactic(auto, using(crate::proofs::ComponentCode::component_code, crate::proofs::ComponentCode::component_none))]
fn row_bound(row: Row, state: &State, kinds: &Kinds) -> u32
    requires state { IsState kinds.now state.now }
    ensures { result ≡ component_value row state.now kinds.now }
{
    let trails = count_trails_in(row, state, kinds);
    if trails == 0 {
        return 0;
    }
    let empty = count_empty(row, state, kinds);
    trails.saturating_sub(empty)
}

impl RowBound for Component {
    ghost use Rattle.row_state.specs.declared.bound.TheConstants.{COMPONENT_LOG};

    ghost value = { λ b row s k. component_value row s k };

    ghost trails_of = { λ b row end left k. component_trails row end left k };

    ghost version_of = { λ b. COMPONENT_LOG };

    ghost holds = { λ b row s k some valid. component_holds k s row some };

    ghost known = { λ b. inr refl };

    fn bound(&self, row: Row, state: &State, kinds: &Kinds) -> u32 {
        row_bound(row, state, kinds)
    }

    fn trails(&self, row: Row, state: &State, kinds: &Kinds) -> u32 {
        count_trails_in(row, state, kinds)
    }

    #[tactic(auto, using(crate::proofs::ComponentCode::component_code))]
    fn is_above(
        &self,
        row: Row,
        state: &State,
        kinds: &Kinds,
        trails: u32,
        empty: u32,
        most: u32,
    ) -> bool {
        are_above(trails, empty, most)
    }

    fn version(&self) -> u32 {
        COMPONENT_LOG
    }
}
