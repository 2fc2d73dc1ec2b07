// The names of nets by their labels.
ghost use Rattle.std.specs.Prelude.{◌≡◌, ◌++◌, IsTrue, IfOk, IfErr, OnOk, is_some, None, codes, decimal};
ghost use Rattle.std.specs.Option.{option_map};
ghost use Rattle.std.specs.Str.{bytes_eq};
ghost use Rattle.net_extract.specs.Naming.{label_of, first_other, other_of, short_net, stands_elsewhere, split_name};
ghost use Rattle.net_extract.specs.Naming.{name_of, names_of, IsShortOf, IsShortIn, IsSplitOf, IsNameFault};

use crate::fault::ExtractFault;
use cell_num::{Name, Names, NoMemory, copy, put_number};
use std::alloc::Global;

/// A label's name and the number of the net that it belongs to.
#[derive(Debug, PartialEq, Eq, Drop)]
pub struct NetLabel {
    pub name: Name,
    pub net: u32,
}

fn same_name(a: &Name, b: &Name) -> bool
    ensures { result ≡ bytes_eq a.now b.now }
{
    a.as_slice() == b.as_slice()
}

fn label(held: &[NetLabel], net: u32) -> Option<&Name>
    ensures { option_map (λ n. n.now) result ≡ label_of net held.now }
{
    held.iter().find(|h| h.net == net).map(|h| &h.name)
}

fn other_than<'a>(held: &'a [NetLabel], net: u32, one: &Name) -> Option<&'a Name>
    ensures { option_map (λ n. n.now) result ≡ first_other one.now net held.now }
{
    held.iter()
        .find(|h| h.net == net && !same_name(&h.name, one))
        .map(|h| &h.name)
}

fn other_label(held: &[NetLabel], net: u32) -> Option<&Name>
    ensures { option_map (λ n. n.now) result ≡ other_of net held.now }
{
    match label(held, net) {
        Some(one) => other_than(held, net, one),
        None => None,
    }
}

fn is_short(held: &[NetLabel], net: u32) -> bool
    ensures { result ≡ is_some (other_of net held.now) }
{
    other_label(held, net).is_some()
}

fn first_short(held: &[NetLabel], count: u32) -> Option<u32>
    ensures { result ≡ short_net held.now count }
{
    (0..count).find(|net| is_short(held, *net))
}

fn is_elsewhere(held: &[NetLabel], label: &NetLabel) -> bool
    ensures { result ≡ stands_elsewhere held.now label.now }
{
    held.iter()
        .any(|h| h.net != label.net && same_name(&h.name, &label.name))
}

fn first_split(held: &[NetLabel]) -> Option<&Name>
    ensures { option_map (λ n. n.now) result ≡ split_name held.now }
{
    held.iter()
        .find(|label| is_elsewhere(held, label))
        .map(|label| &label.name)
}

fn short(alloc: Global, one: &Name, other: &Name) -> ExtractFault
    ensures { IsShortOf one.now other.now result }
{
    match (copy(alloc, one.as_slice()), copy(alloc, other.as_slice())) {
        (Ok(one), Ok(other)) => ExtractFault::Short { one, other },
        _ => ExtractFault::NoMemory,
    }
}

#[tactic(auto, using(crate::proofs::Faults::other_has_label))]
fn short_in(alloc: Global, held: &[NetLabel], net: u32) -> ExtractFault
    requires { IsTrue (is_some (other_of net held.now)) }
    ensures { IsShortIn held.now net result }
{
    match (label(held, net), other_label(held, net)) {
        (Some(one), Some(other)) => short(alloc, one, other),
        _ => unreachable!(),
    }
}

#[tactic(auto, using(crate::proofs::Faults::short_rules))]
fn check_shorts(alloc: Global, held: &[NetLabel], count: u32) -> Result<(), ExtractFault>
    ensures none { OnOk result (short_net held.now count ≡ None) }
    ensures refused { IfErr result (IsNameFault held.now count) }
{
    match first_short(held, count) {
        Some(net) => Err(short_in(alloc, held, net)),
        None => Ok(()),
    }
}

fn split(alloc: Global, name: &Name) -> ExtractFault
    ensures { IsSplitOf name.now result }
{
    match copy(alloc, name.as_slice()) {
        Ok(name) => ExtractFault::Split { name },
        Err(_) => ExtractFault::NoMemory,
    }
}

#[tactic(auto, using(crate::proofs::Faults::split_rules))]
fn check_splits(alloc: Global, held: &[NetLabel], count: u32) -> Result<(), ExtractFault>
    requires { short_net held.now count ≡ None }
    ensures none { OnOk result (split_name held.now ≡ None) }
    ensures refused { IfErr result (IsNameFault held.now count) }
{
    match first_split(held) {
        Some(name) => Err(split(alloc, name)),
        None => Ok(()),
    }
}

fn number_name(alloc: Global, net: u32) -> Result<Name, NoMemory>
    ensures { IfOk result (λ name. name ≡ codes "_" ++ decimal net) }
{
    let mut name = copy(alloc, b"_")?;
    put_number(&mut name, u64::from(net))?;
    Ok(name)
}

fn net_name(alloc: Global, held: &[NetLabel], net: u32) -> Result<Name, NoMemory>
    ensures { IfOk result (λ name. name ≡ name_of held.now net) }
{
    match label(held, net) {
        Some(name) => copy(alloc, name.as_slice()),
        None => number_name(alloc, net),
    }
}

fn all_names(alloc: Global, held: &[NetLabel], count: u32) -> Result<Names, NoMemory>
    ensures { IfOk result (λ names. names ≡ names_of held.now count) }
{
    let mut names = Names::new(alloc);
    for net in 0..count {
        names.push(net_name(alloc, held, net)?)?;
    }
    Ok(names)
}

/// The names of `count` nets by number: a net's first label, or `_` and its number where it has none. It
/// is refused where a net holds two different labels, or else where a label is in two nets.
pub fn net_names(alloc: Global, held: &[NetLabel], count: u32) -> Result<Names, ExtractFault>
    ensures names { IfOk result (λ names. names ≡ names_of held.now count) }
    ensures no_short { OnOk result (short_net held.now count ≡ None) }
    ensures no_split { OnOk result (split_name held.now ≡ None) }
    ensures refused { IfErr result (IsNameFault held.now count) }
{
    check_shorts(alloc, held, count)?;
    check_splits(alloc, held, count)?;
    match all_names(alloc, held, count) {
        Ok(names) => Ok(names),
        Err(_) => Err(ExtractFault::NoMemory),
    }
}
