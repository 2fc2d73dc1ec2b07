// Whether ports are on the nets of their pins: those of one net and layer are looked at together.
ghost use Rattle.std.specs.Prelude.{◌≡◌, ◌≤◌, ◌↔◌, ◌∷◌, ◌&&◌, ◌==◌, length, map, IfErr};
ghost use Rattle.std.specs.Prelude.{IfOk, OnOk, IfSome, IsNone, IsTrue, IsPermutation};
ghost use Rattle.std.specs.List.{All, prefix_len};
ghost use Rattle.box_geom.specs.Regions.{IsBlock, IsFirst};
ghost use Rattle.lef_read.specs.Differences.{IsFirstNot};
ghost use Rattle.lef_read.specs.declared.claim.Claim.{Claim as ClaimOf};
ghost use Rattle.lef_read.specs.Lookups.{is_alike, Fits, HasBlock, IsAstray, IsClaim, IsOfNet, IsPortOff, IsMisfitBy};

use crate::claim::Claim;
use crate::differ::Differ;
use bare_cells::first_bare;
use box_geom::{Block, Layer, Place};
use cell_num::{NoMemory, copy};
use net_extract::NetMap;
use std::alloc::{AllocError, Global};

fn is_alike(claim: &Claim, net: u32, layer: Layer) -> bool
    ensures { result ≡ is_alike net layer claim.now }
{
    claim.net == net && claim.layer == layer
}

// How many claims, from the first on, are of the net and layer.
fn count_alike(claims: &[Claim], net: u32, layer: Layer) -> usize
    ensures count { result ≡ prefix_len (is_alike net layer) claims.now }
    ensures bound { result ≤ length claims.now }
{
    claims
        .iter()
        .take_while(|claim| is_alike(claim, net, layer))
        .count()
}

fn blocks(alloc: Global, first: &Claim, more: &[Claim]) -> Result<Vec<Block>, AllocError>
    requires first { HasBlock first.now }
    requires more { All HasBlock more.now }
    ensures same { IfOk result (λ v. v.items ≡ map (λ (c : ClaimOf). c.block) (first.now ∷ more.now)) }
    ensures blocks { IfOk result (λ v. All IsBlock v.items) }
{
    let mut blocks = vec![in alloc; first.block]?;
    for claim in more {
        blocks.push(claim.block)?;
    }
    Ok(blocks)
}

// Whether all cells of claims of one net and layer are on that net.
fn do_fit(alloc: Global, map: &NetMap, first: &Claim, more: &[Claim]) -> Result<bool, NoMemory>
    requires first { HasBlock first.now }
    requires more { All HasBlock more.now }
    requires alike { All (IsOfNet first.now.net first.now.layer) more.now }
    ensures { IfOk result (λ fit. IsTrue fit ↔ All (Fits map.now) (first.now ∷ more.now)) }
{
    let blocks = blocks(alloc, first, more)?;
    let pieces = map.pieces(alloc, first.net, first.layer)?;
    let bare = first_bare(alloc, blocks.as_slice(), pieces.as_slice())?;
    Ok(bare.is_none())
}

// Whether claims that are sorted by net and layer are all on their nets.
#[tactic(auto, using(crate::proofs::Runs::alike_all))]
fn runs_fit(alloc: Global, map: &NetMap, claims: &[Claim]) -> Result<bool, NoMemory>
    requires { All HasBlock claims.now }
    ensures { IfOk result (λ fit. IsTrue fit ↔ All (Fits map.now) claims.now) }
{
    let mut rest = claims;
    'runs: while let [first, after @ ..] = rest {
        let (alike, others) = after.split_at(count_alike(after, first.net, first.layer));
        if !do_fit(alloc, map, first, alike)? {
            return Ok(false);
        }
        rest = others;
    }
    Ok(true)
}

fn by_net(alloc: Global, claims: &[Claim]) -> Result<Vec<Claim>, AllocError>
    ensures { IfOk result (λ v. IsPermutation claims.now v.items) }
{
    let mut sorted = Vec::from_slice(alloc, claims)?;
    sorted.sort_unstable_by_key(|claim| (claim.net, claim.layer as u8));
    Ok(sorted)
}

fn all_fit(alloc: Global, map: &NetMap, claims: &[Claim]) -> Result<bool, NoMemory>
    requires { All HasBlock claims.now }
    ensures { IfOk result (λ fit. IsTrue fit ↔ All (Fits map.now) claims.now) }
{
    let sorted = by_net(alloc, claims)?;
    runs_fit(alloc, map, sorted.as_slice())
}

// The first of claims that are not all on their nets. A half is looked at as a whole, so all halves together take no
// more than the claims twice.
#[tactic(auto, using(crate::proofs::Runs::misfit_rules))]
fn first_misfit<'a>(alloc: Global, map: &NetMap, claims: &'a [Claim]) -> Result<&'a Claim, NoMemory>
    requires blocks { All HasBlock claims.now }
    requires some { All (Fits map.now) claims.now → ⊥ }
    ensures { IfOk result (λ c. IsFirstNot (Fits map.now) claims.now c.now) }
{
    if let [claim] = claims {
        return Ok(claim);
    }
    let (first, second) = claims.split_at(claims.len() / 2);
    if all_fit(alloc, map, first)? {
        first_misfit(alloc, map, second)
    } else {
        first_misfit(alloc, map, first)
    }
}

// The first cell of a claim that is not on its net.
fn first_astray(alloc: Global, map: &NetMap, claim: &Claim) -> Result<Option<Place>, NoMemory>
    requires { HasBlock claim.now }
    ensures some { IfOk result (λ o. IfSome o (λ p. IsFirst (IsAstray map.now claim.now) p.x p.y)) }
    ensures none { IfOk result (λ o. IsNone o → Fits map.now claim.now) }
{
    let pieces = map.pieces(alloc, claim.net, claim.layer)?;
    first_bare(alloc, &[claim.block], pieces.as_slice())
}

fn misfit(alloc: Global, name: &[u8], place: &Place) -> Differ
    ensures { IsPortOff name.now place.now result }
{
    match copy(alloc, name) {
        Ok(name) => Differ::Port {
            name,
            x: place.x,
            y: place.y,
        },
        Err(_) => Differ::NoMemory,
    }
}

/// Refuses the first port that is not on the net of its pin.
#[tactic(auto, using(crate::proofs::Runs::have_blocks, crate::proofs::Runs::misfit_is))]
pub(crate) fn check_claims(alloc: Global, map: &NetMap, claims: &[Claim]) -> Result<(), Differ>
    requires { All (IsClaim map.now) claims.now }
    ensures all { OnOk result (All (Fits map.now) claims.now) }
    ensures misfit { IfErr result (IsMisfitBy map.now claims.now) }
{
    if all_fit(alloc, map, claims)? {
        return Ok(());
    }
    let claim = first_misfit(alloc, map, claims)?;
    match first_astray(alloc, map, claim)? {
        Some(place) => Err(misfit(alloc, map.name(claim.net).as_slice(), &place)),
        None => unreachable!(),
    }
}
