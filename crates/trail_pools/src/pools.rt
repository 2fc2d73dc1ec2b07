ghost use Rattle.std.specs.Prelude.{◌≡◌, ◌≤◌, IfOk};
ghost use Rattle.cell_num.specs.Fingers.{AreFingers};
ghost use Rattle.open_gates.specs.Open.{is_left_open, is_merged_net};
ghost use Rattle.trail_halves.specs.Open.{ArePools};
ghost use Rattle.trail_pools.specs.Leveled.{has_pool, pools_of};

use cell_num::{Fingers, List, NoMemory, Row};
use open_gates::OpenGates;
use open_gates::gates::merged_nets;
use open_gates::merge::is_listed;
use std::alloc::Global;

/// The pools of a cell: nodes are below `nodes`, and those that have one of the nets in the row are the net's pool.
#[derive(Debug, PartialEq, Drop)]
pub struct Pools {
    pub nodes: u32,
    pub row: Row,
    pub nets: List<u32>,
}

impl Pools {
    /// The pools of the nets at the ends of the row's fingers on gates that are left open: those that the laws ask.
    pub fn of(alloc: Global, fingers: &Fingers, counted: &OpenGates) -> Result<Self, NoMemory>
        requires { AreFingers fingers.now }
        ensures is { IfOk result (λ pools. pools ≡ pools_of fingers.now counted.now) }
        ensures test { IfOk result (λ pools. has_pool pools ≡ is_merged_net fingers.now counted.now) }
        ensures are { IfOk result (λ pools.
            ArePools fingers.now counted.now.row (is_left_open counted.now) (has_pool pools)) }
        ensures few { IfOk result (λ pools. pools.nodes ≤ 65536) }
    {
        let nets = merged_nets(alloc, fingers, counted)?;
        Ok(Pools {
            nodes: 256 * fingers.nets,
            row: counted.row,
            nets: List::from_vec(nets),
        })
    }

    /// Whether the net has a pool.
    pub fn has(&self, net: u32) -> bool
        ensures { result ≡ has_pool self.now net }
    {
        is_listed(self.nets.as_slice(), net)
    }
}
