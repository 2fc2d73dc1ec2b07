ghost use Rattle.std.specs.Prelude.{◌≡◌, ◌<◌, ◌++◌, ℕ, List as Sequence, OnOk, length, slice_get};
ghost use Rattle.cell_report.specs.Cycles.{below, entry_text, pair_text, above_text, cycle_text, ring_text};

use crate::names::put_net;
use cell_num::{Bytes, Names, NoMemory, put_number};
use channel_route::{Above, Ring, WireAbove};

/// An entry of a cycle.
pub(crate) trait Entry {
    /// How it is reported, by the names of the nets.
    ghost told: { Sequence (Sequence ℕ) → Self → Sequence ℕ };

    /// The line at which it meets the entry below.
    ghost met: { Self → ℕ };

    fn put(&self, out: &mut Bytes, nets: &Names) -> Result<(), NoMemory>
        ensures { OnOk result (out.new ≡ out.old ++ told nets.now self.now) };

    fn line(&self) -> u32
        ensures { result ≡ met self.now };
}

impl Entry for Above {
    ghost use Rattle.cell_report.specs.Cycles.{net_text};

    ghost told = { λ nets above. net_text nets above };

    ghost met = { λ above. above.line };

    fn put(&self, out: &mut Bytes, nets: &Names) -> Result<(), NoMemory> {
        put_net(out, nets, self.net.0)
    }

    fn line(&self) -> u32 {
        self.line
    }
}

impl Entry for WireAbove {
    ghost use Rattle.cell_report.specs.Cycles.{piece_text};

    ghost told = { λ nets piece. piece_text nets piece };

    ghost met = { λ piece. piece.line };

    fn put(&self, out: &mut Bytes, nets: &Names) -> Result<(), NoMemory> {
        put_net(out, nets, self.net.0)?;
        out.extend(b" from line ")?;
        put_number(out, u64::from(self.left))
    }

    fn line(&self) -> u32 {
        self.line
    }
}

fn below(count: usize, at: usize) -> usize
    requires { at < count }
    ensures { result ≡ below count at }
{
    if at + 1 < count { at + 1 } else { 0 }
}

fn put_entry<E: Entry>(
    out: &mut Bytes,
    nets: &Names,
    cycle: &[E],
    at: usize,
) -> Result<(), NoMemory>
    ensures { OnOk result (out.new ≡ out.old ++ entry_text (E.told nets.now) (slice_get cycle.now at)) }
{
    match cycle.get(at) {
        Some(entry) => entry.put(out, nets),
        None => Ok(()),
    }
}

fn put_pair<E: Entry>(
    out: &mut Bytes,
    nets: &Names,
    cycle: &[E],
    at: usize,
    entry: &E,
) -> Result<(), NoMemory>
    requires { at < length cycle.now }
    ensures { OnOk result (out.new ≡ out.old ++ pair_text (E.told nets.now) cycle.now (at, entry.now)) }
{
    entry.put(out, nets)?;
    out.extend(b" above ")?;
    put_entry(out, nets, cycle, below(cycle.len(), at))
}

fn put_above<E: Entry>(
    out: &mut Bytes,
    nets: &Names,
    cycle: &[E],
    at: usize,
    entry: &E,
) -> Result<(), NoMemory>
    requires { at < length cycle.now }
    ensures { OnOk result (out.new ≡ out.old ++ above_text (E.told nets.now) E.met cycle.now (at, entry.now)) }
{
    put_pair(out, nets, cycle, at, entry)?;
    out.extend(b" at line ")?;
    put_number(out, u64::from(entry.line()))?;
    out.extend(b"\n")
}

// A line for each entry: the entry, the one that it is above, and the line at which they meet.
pub(crate) fn put_cycle<E: Entry>(
    out: &mut Bytes,
    nets: &Names,
    cycle: &[E],
) -> Result<(), NoMemory>
    ensures { OnOk result (out.new ≡ out.old ++ cycle_text (E.told nets.now) E.met cycle.now) }
{
    'entries: for (at, entry) in cycle.iter().enumerate() {
        put_above(out, nets, cycle, at, entry)?;
    }
    Ok(())
}

/// Adds a line for each entry of a cycle: the net or the piece, the one that it is above, and the line at which they
/// meet. The last is above the first.
pub fn put_ring(out: &mut Bytes, nets: &Names, ring: &Ring) -> Result<(), NoMemory>
    ensures { OnOk result (out.new ≡ out.old ++ ring_text nets.now ring.now) }
{
    match ring {
        Ring::OfNets(cycle) => put_cycle(out, nets, cycle.as_slice()),
        Ring::OfPieces(cycle) => put_cycle(out, nets, cycle.as_slice()),
    }
}
