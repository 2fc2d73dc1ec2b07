ghost use Rattle.std.specs.Prelude.{◌≡◌, ◌<◌, [], ◌∷◌, length};
ghost use Rattle.finger_fold.specs.Folding.{widest, count_of, fingers_in};

use cell_num::Row;
use spice_net::Device;
use tech_file::Tech;

fn widest(tech: &Tech, row: Row) -> u32
    ensures { result ≡ widest tech.now row }
{
    match row {
        Row::P => tech.wmax_p,
        Row::N => tech.wmax_n,
    }
}

/// How many fingers a transistor has.
#[tactic(auto, using(crate::proofs::Counts::count_positive))]
pub fn count_of(tech: &Tech, device: &Device) -> u32
    ensures count { result ≡ count_of tech.now device.now }
    ensures positive { 0 < device.now.width → 0 < result }
{
    tech.show_limits();
    device
        .width
        .div_ceil(widest(tech, device.row))
        .max(device.fingers)
}

// How many of a transistor's fingers are in this row.
#[tactic(auto, using(crate::proofs::Counts::length_in_row))]
fn count_at(row: Row, tech: &Tech, device: &Device) -> u32
    ensures { result ≡ length (fingers_in row tech.now (device.now ∷ [])) }
{
    tech.show_limits();
    if device.row == row {
        return count_of(tech, device);
    }
    0
}

/// How many fingers a row has. None is made: there may be far too many for a list.
#[tactic(auto, using(crate::proofs::Counts::length_more))]
pub fn count_in(row: Row, tech: &Tech, devices: &[Device]) -> u128
    ensures { result ≡ length (fingers_in row tech.now devices.now) }
{
    let mut count = 0;
    for device in devices {
        count += u128::from(count_at(row, tech, device));
    }
    count
}
