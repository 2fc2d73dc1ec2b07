ghost use Rattle.std.specs.Prelude.{◌≡◌, ◌≤◌, ℕ, All, length};
ghost use Rattle.gds_write.specs.Written.{padded, written};
ghost use Rattle.bench_command.specs.Size.{IsShort, IsSmall, labels_size};

use box_geom::{Label, Shapes};
use cell_num::{MOST_NETS, Name};

// The bytes of a text that is filled up to an even number of them.
#[tactic(auto, using(crate::proofs::Sizes::padded_few))]
fn padded_len(text: &[u8]) -> u64
    requires { length text.now ≤ 64 }
    ensures size { result ≡ length (padded text.now) }
    ensures few { result ≤ 65 }
{
    if text.len() % 2 == 0 {
        text.len() as u64
    } else {
        text.len() as u64 + 1
    }
}

fn labels_len(labels: &[Label]) -> u64
    requires few { length labels.now ≤ MOST_NETS }
    requires short { All IsShort labels.now }
    ensures size { result ≡ labels_size labels.now }
    ensures few { result ≤ 25856 }
{
    let mut bytes = 0;
    for label in labels {
        bytes += 36 + padded_len(label.name.as_slice());
    }
    bytes
}

/// The bytes of the library of shapes, which are not written.
#[tactic(auto, using(crate::proofs::Sizes::counted_is))]
pub fn library_len(name: &Name, shapes: &Shapes) -> u64
    requires { IsSmall name.now shapes.now }
    ensures size { (unit : ℕ) → result ≡ length (written name.now shapes.now unit) }
    ensures few { result ≤ 1048576 }
{
    let labels = labels_len(shapes.labels.as_slice());
    106 + padded_len(name.as_slice()) + 64 * shapes.rects.len() as u64 + labels
}
