ghost use Rattle.std.specs.Prelude.{◌<◌, ◌≡◌, ◌≤◌, false, if◌then◌else◌, slice_index_or, ℕ};
ghost use Rattle.row_trails.specs.Trails.{size, toggle};

use cell_num::MOST_NETS;

/// A place for each net of a cell.
pub const NETS: usize = MOST_NETS as usize;

/// Takes the net out of the set, or puts it in.
#[tactic(auto, using(crate::proofs::Sets::toggled_at))]
pub fn toggle_net(set: &mut [bool; NETS], net: u32)
    requires { net < MOST_NETS }
    ensures { (u : ℕ) → slice_index_or set.new u false ≡ toggle net (λ v. slice_index_or set.old v false) u }
{
    let at = net as usize;
    set[at] = !set[at];
}

fn one_if(counted: bool) -> u32
    ensures { result ≡ (if counted then 1 else 0) }
{
    if counted { 1 } else { 0 }
}

/// How many of the nets numbered below `nets` are in the set.
#[tactic(auto, using(crate::proofs::Sets::size_more, crate::proofs::Sets::size_le))]
pub fn count_nets(set: &[bool; NETS], nets: u32) -> u32
    requires { nets ≤ MOST_NETS }
    ensures { result ≡ size nets (λ u. slice_index_or set.now u false) }
{
    let mut count = 0;
    for net in 0..nets {
        count += one_if(set[net as usize]);
    }
    count
}
