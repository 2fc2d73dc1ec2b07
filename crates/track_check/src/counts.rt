// How often each net is touched by the fingers that a state has left and by its open ends, counted once for all nets.
ghost use Rattle.std.specs.Prelude.{◌≡◌, ◌≤◌, ◌<◌, ◌+◌, ◌==◌, ℕ, All, IfSome, length};
ghost use Rattle.row_trails.specs.Counts.{entry};
ghost use Rattle.row_state.specs.Start.{IsKind, IsState};
ghost use Rattle.track_ways.specs.Lines.{is_net};
ghost use Rattle.track_ways.specs.Ways.{net_of};
ghost use Rattle.track_check.specs.Touches.{AreTouches, counted_if, kind_touches, row_touches};

use cell_num::{MOST_NETS, NetNo};
use row_state::{Kind, Kinds, State};
use row_trails::NETS;

#[tactic(auto, using(crate::proofs::Counting::added_at))]
fn add_at(table: &mut [u32; NETS], net: &NetNo, count: u32)
    requires net { net.now.0 < MOST_NETS }
    requires few { entry table.old net.now.0 + count ≤ 4294967295 }
    ensures { (u : ℕ) → entry table.new u ≡ entry table.old u + counted_if (net.now.0 == u) count }
{
    table[net.0 as usize] += count;
}

// That many fingers of the kind.
fn add_kind(table: &mut [u32; NETS], kind: &Kind, count: u32)
    requires lo { kind.now.lo.0 < MOST_NETS }
    requires hi { kind.now.hi.0 < MOST_NETS }
    requires gate { kind.now.gate.0 < MOST_NETS }
    requires few { (u : ℕ) → entry table.old u + kind_touches u (kind.now, count) ≤ 4294967295 }
    ensures { (u : ℕ) → entry table.new u ≡ entry table.old u + kind_touches u (kind.now, count) }
{
    add_at(table, &kind.lo, count);
    add_at(table, &kind.hi, count);
    add_at(table, &kind.gate, count);
}

// The fingers left of a row.
fn add_row(table: &mut [u32; NETS], kinds: &[Kind], left: &[u32], nets: u32)
    requires few_nets { nets ≤ MOST_NETS }
    requires kinds { All (IsKind nets) kinds.now }
    requires same { length left.now ≡ length kinds.now }
    requires few { (u : ℕ) → entry table.old u + row_touches kinds.now left.now u ≤ 4294967295 }
    ensures { (u : ℕ) → entry table.new u ≡ entry table.old u + row_touches kinds.now left.now u }
{
    for at in 0..kinds.len() {
        add_kind(table, &kinds[at], left[at]);
    }
}

fn add_end(table: &mut [u32; NETS], end: &Option<NetNo>)
    requires end { IfSome end.now (λ net. net.0 < MOST_NETS) }
    requires few { (u : ℕ) → entry table.old u < 4294967295 }
    ensures { (u : ℕ) → entry table.new u ≡ entry table.old u + counted_if (is_net end.now (net_of u)) 1 }
{
    if let Some(net) = end {
        add_at(table, net, 1);
    }
}

/// How often each net is an end or the gate of a finger that the state has left, or one of its open ends, by number.
pub fn touches(kinds: &Kinds, state: &State) -> [u32; NETS]
    requires state { IsState kinds.now state.now }
    ensures touches { AreTouches kinds.now state.now result }
{
    kinds.show_limits();
    let mut table = [0; NETS];
    add_row(
        &mut table,
        kinds.p.as_slice(),
        state.p_left.as_slice(),
        kinds.nets,
    );
    add_row(
        &mut table,
        kinds.n.as_slice(),
        state.n_left.as_slice(),
        kinds.nets,
    );
    add_end(&mut table, &state.p_end);
    add_end(&mut table, &state.n_end);
    table
}
