ghost use Rattle.std.specs.Prelude.{◌≡◌, ◌≤◌, ◌↔◌, ℕ, List};
ghost use Rattle.cell_num.specs.declared.finger.Finger.{Finger};
ghost use Rattle.row_state.specs.Classes.{AreChained, least_chained};

use crate::{COMPONENT_LOG, PARITY_LOG};

/// Two nets are of one class where the ends of fingers chain them, and the class has the name of its
/// least net. It does nothing: its contract is the law.
pub fn chained_classes()
    ensures class { (fs : List Finger) (u v : ℕ) → (least_chained fs u ≡ least_chained fs v) ↔ AreChained fs u v }
    ensures in_class { (fs : List Finger) (u : ℕ) → AreChained fs (least_chained fs u) u }
    ensures least { (fs : List Finger) (u v : ℕ) → AreChained fs u v → least_chained fs u ≤ v }
{}

/// The versions that logs have, as numbers. It does nothing: its contract is the law.
pub fn log_versions()
    ensures parity { PARITY_LOG ≡ 1 }
    ensures component { COMPONENT_LOG ≡ 2 }
{}
