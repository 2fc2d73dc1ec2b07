ghost use Rattle.std.specs.Prelude.{◌≡◌, ◌≤◌, ◌+◌, ◌↔◌, ◌∷◌, ◌++◌, ℕ, All, IfOk, OnOk, IsPermutation, IsSorted};
ghost use Rattle.std.specs.Prelude.{List as Sequence, length, map};
ghost use Rattle.cell_num.specs.declared.finger.Row.{Row};
ghost use Rattle.cell_num.specs.Fingers.{AreFingers, IsFinger};
ghost use Rattle.row_model.specs.declared.column.Column.{Column};
ghost use Rattle.row_model.specs.Arrangement.{IsArrangement};
ghost use Rattle.row_state.specs.declared.kind.Kinds.{Kinds as KindsOf};
ghost use Rattle.row_state.specs.Completion.{Completes};
ghost use Rattle.row_state.specs.Start.{AreKinds, AreKindsOf, AreSomeKinds, start_of};
ghost use Rattle.row_state.specs.Tests.{IsSingle, is_same_kind, kind_cmp, merged, merged_all, single};

use crate::{Kind, KindList, Kinds};
use cell_num::{Finger, Fingers, MOST_COLUMNS, MOST_FINGERS, NoMemory};
use std::alloc::{AllocError, Global};

// The finger as a kind of its own.
fn alone(finger: &Finger) -> Kind
    ensures { result ≡ single finger.now }
{
    Kind {
        gate: finger.gate,
        lo: finger.lo,
        hi: finger.hi,
        width: finger.width,
        count: 1,
    }
}

fn singles(alloc: Global, fingers: &[Finger]) -> Result<Vec<Kind>, AllocError>
    ensures { IfOk result (λ kinds. kinds.items ≡ map single fingers.now) }
{
    fingers.iter().map(|finger| alone(finger)).collect(alloc)
}

#[tactic(auto, using(crate::proofs::Merge::ones_moved, crate::proofs::Merge::len_moved))]
fn sorted_singles(alloc: Global, fingers: &[Finger]) -> Result<Vec<Kind>, AllocError>
    ensures moved { IfOk result (λ kinds. IsPermutation (map single fingers.now) kinds.items) }
    ensures sorted { IfOk result (λ kinds. IsSorted kind_cmp kinds.items) }
    ensures ones { IfOk result (λ kinds. All IsSingle kinds.items) }
    ensures len { IfOk result (λ kinds. length kinds.items ≡ length fingers.now) }
{
    let mut kinds = singles(alloc, fingers)?;
    kinds.sort_unstable();
    Ok(kinds)
}

fn is_same(a: &Kind, b: &Kind) -> bool
    ensures { result ≡ is_same_kind a.now b.now }
{
    a.gate == b.gate && a.lo == b.lo && a.hi == b.hi && a.width == b.width
}

// The kind joins the current one, or takes its place.
fn join(kinds: &mut KindList, current: &mut Kind, kind: &Kind) -> Result<(), NoMemory>
    requires few { current.old.count ≤ MOST_FINGERS }
    requires one { kind.now.count ≤ 1 }
    ensures joined { OnOk result ((rest : Sequence Kind) →
        kinds.new ++ merged current.new rest ≡ kinds.old ++ merged current.old (kind.now ∷ rest)) }
    ensures count { OnOk result (current.new.count ≤ current.old.count + 1) }
{
    if is_same(current, kind) {
        current.count += 1;
    } else {
        kinds.push(*current)?;
        *current = *kind;
    }
    Ok(())
}

// Neighbours of one kind are counted together.
fn merge(alloc: Global, first: &Kind, rest: &[Kind]) -> Result<KindList, NoMemory>
    requires few { length rest.now ≤ MOST_COLUMNS }
    requires one { first.now.count ≤ 1 }
    requires ones { All IsSingle rest.now }
    ensures { IfOk result (λ kinds. kinds ≡ merged first.now rest.now) }
{
    let mut kinds = KindList::new(alloc);
    let mut current = *first;
    for kind in rest {
        join(&mut kinds, &mut current, kind)?;
    }
    kinds.push(current)?;
    Ok(kinds)
}

fn merge_all(alloc: Global, kinds: &[Kind]) -> Result<KindList, NoMemory>
    requires few { length kinds.now ≤ MOST_COLUMNS }
    requires ones { All IsSingle kinds.now }
    ensures { IfOk result (λ all. all ≡ merged_all kinds.now) }
{
    match kinds.split_first() {
        Some((first, rest)) => merge(alloc, first, rest),
        None => Ok(KindList::new(alloc)),
    }
}

fn kinds_of(alloc: Global, fingers: &[Finger]) -> Result<KindList, NoMemory>
    requires few { length fingers.now ≤ MOST_COLUMNS }
    ensures { IfOk result (λ kinds. (row : Row) (nets : ℕ) → All (IsFinger row nets) fingers.now →
        AreKindsOf row nets fingers.now kinds) }
{
    let singles = sorted_singles(alloc, fingers)?;
    let kinds = merge_all(alloc, &singles)?;
    Ok(kinds)
}

// The kinds of both rows, in order.
#[tactic(auto, using(crate::proofs::KindsOf::few_fingers))]
fn kinds_of_rows(alloc: Global, fingers: &Fingers) -> Result<Kinds, NoMemory>
    requires { AreFingers fingers.now }
    ensures { IfOk result (λ k. AreKinds fingers.now k × AreSomeKinds k) }
{
    Ok(Kinds {
        nets: fingers.nets,
        p: kinds_of(alloc, fingers.p.as_slice())?,
        n: kinds_of(alloc, fingers.n.as_slice())?,
    })
}

/// The kinds of the fingers. No other lists of kinds in order are theirs.
pub fn kinds(alloc: Global, fingers: &Fingers) -> Result<Kinds, NoMemory>
    requires { AreFingers fingers.now }
    ensures kinds { IfOk result (λ k. AreKinds fingers.now k) }
    ensures sound { IfOk result (λ k. AreSomeKinds k) }
    ensures only { IfOk result (λ k. (other : KindsOf) → AreKinds fingers.now other → AreSomeKinds other → other ≡ k) }
    ensures arranges { IfOk result (λ k. (row : Sequence Column) → IsArrangement row fingers.now ↔
        Completes k (start_of k) row) }
{
    let kinds = kinds_of_rows(alloc, fingers)?;
    Ok(kinds)
}
