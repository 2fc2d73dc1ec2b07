// The nets of labels, to be looked up by name.
ghost use Rattle.std.specs.Prelude.{◌≡◌, IsPermutation};
ghost use Rattle.std.specs.Cmp.Lexicographic.{slice_cmp};
ghost use Rattle.std.specs.Ordering.{nat_cmp};
ghost use Rattle.std.specs.List.Sorted.{IsSortedByKey};
ghost use Rattle.net_extract.specs.NetMaps.{AreByName, net_labelled};

use crate::naming::NetLabel;
use std::cmp::Ordering;

fn compare(label: &NetLabel, name: &[u8]) -> Ordering
    ensures { result ≡ slice_cmp nat_cmp label.now.name name.now }
{
    label.name.as_slice().cmp(name)
}

/// Labels in the order of their names.
pub(crate) fn by_name(mut labels: Vec<NetLabel>) -> Vec<NetLabel>
    ensures moved { IsPermutation labels.items result.items }
    ensures sorted { IsSortedByKey (λ h. h.name) (slice_cmp nat_cmp) result.items }
{
    labels.sort_unstable_by(|one, other| compare(one, other.name.as_slice()));
    labels
}

/// The net of the labels of a name; None where there is none.
pub(crate) fn net_of_name(labels: &[NetLabel], name: &[u8]) -> Option<u32>
    requires { AreByName labels.now }
    ensures { result ≡ net_labelled labels.now name.now }
{
    match labels.binary_search_by(|label| compare(label, name)) {
        Ok(at) => Some(labels[at].net),
        Err(_) => None,
    }
}
