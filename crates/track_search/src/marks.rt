// Which nets a state still has places of, marked kind by kind: how many there are is not asked.
ghost use Rattle.std.specs.Prelude.{ℕ, ◌≡◌, ◌<◌, ◌≤◌, ◌==◌, ◌||◌, All, IfSome, length, ltb};
ghost use Rattle.row_trails.specs.Counts.{flag};
ghost use Rattle.row_state.specs.Start.{IsKind, IsState};
ghost use Rattle.track_ways.specs.Lines.{is_net};
ghost use Rattle.track_ways.specs.States.{is_still_ahead};
ghost use Rattle.track_ways.specs.Tables.{marked};
ghost use Rattle.track_ways.specs.Ways.{net_of};
ghost use Rattle.track_check.specs.Touches.{kind_touches, row_touches};

use cell_num::{MOST_NETS, NetNo};
use row_state::{Kind, Kinds, State};
use row_trails::NETS;

#[tactic(auto, using(track_ways::proofs::Tables::mark_at))]
fn mark(table: &mut [bool; NETS], net: &NetNo)
    requires { net.now.0 < MOST_NETS }
    ensures { (u : ℕ) → flag table.new u ≡ (flag table.old u || (net.now.0 == u)) }
{
    table[net.0 as usize] = true;
}

// The ends and the gate of a kind, where some of its fingers are left.
fn mark_kind(table: &mut [bool; NETS], kind: &Kind, count: u32)
    requires lo { kind.now.lo.0 < MOST_NETS }
    requires hi { kind.now.hi.0 < MOST_NETS }
    requires gate { kind.now.gate.0 < MOST_NETS }
    ensures { (u : ℕ) → flag table.new u ≡ (flag table.old u || ltb 0 (kind_touches u (kind.now, count))) }
{
    if count == 0 {
        return;
    }
    mark(table, &kind.lo);
    mark(table, &kind.hi);
    mark(table, &kind.gate);
}

// The fingers left of a row.
fn mark_row(table: &mut [bool; NETS], kinds: &[Kind], left: &[u32], nets: u32)
    requires few_nets { nets ≤ MOST_NETS }
    requires kinds { All (IsKind nets) kinds.now }
    requires same { length left.now ≡ length kinds.now }
    ensures { (u : ℕ) → flag table.new u ≡ (flag table.old u || ltb 0 (row_touches kinds.now left.now u)) }
{
    for at in 0..kinds.len() {
        mark_kind(table, &kinds[at], left[at]);
    }
}

#[tactic(auto, using(track_ways::proofs::Tables::mark_at))]
fn mark_end(table: &mut [bool; NETS], end: &Option<NetNo>)
    requires end { IfSome end.now (λ net. net.0 < MOST_NETS) }
    ensures { (u : ℕ) → flag table.new u ≡ (flag table.old u || is_net end.now (net_of u)) }
{
    if let Some(net) = end {
        table[net.0 as usize] = true;
    }
}

/// The nets with a place at the state's last node line or later.
pub(crate) fn nets_after(kinds: &Kinds, state: &State) -> [bool; NETS]
    requires state { IsState kinds.now state.now }
    ensures { marked result ≡ is_still_ahead kinds.now state.now }
{
    kinds.show_limits();
    let mut table = [false; NETS];
    mark_row(
        &mut table,
        kinds.p.as_slice(),
        state.p_left.as_slice(),
        kinds.nets,
    );
    mark_row(
        &mut table,
        kinds.n.as_slice(),
        state.n_left.as_slice(),
        kinds.nets,
    );
    mark_end(&mut table, &state.p_end);
    mark_end(&mut table, &state.n_end);
    table
}
