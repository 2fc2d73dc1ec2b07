ghost use Rattle.std.specs.Prelude.{◌≡◌, IfOk, map};
ghost use Rattle.std.specs.List.{filter};
ghost use Rattle.trail_search.specs.Line.{class_at, is_name, is_odd, is_of, line_of, pair_at};

use cell_num::{List, NetNo, NoMemory};
use std::alloc::{AllocError, Global};
use trail_log::{Class, ClassList, LemmaLine, NetPair};
use trail_state::Place;

fn pair(place: &Place) -> NetPair
    ensures { result ≡ pair_at place.now }
{
    NetPair {
        p: NetNo(place.node.0 / 256),
        n: NetNo(place.node.0 % 256),
    }
}

fn odd(alloc: Global, places: &[Place]) -> Result<Vec<NetPair>, AllocError>
    ensures { IfOk result (λ all. all.items ≡ map pair_at (filter is_odd places.now)) }
{
    places
        .iter()
        .filter(|place| place.odd)
        .map(|place| pair(place))
        .collect(alloc)
}

fn is_of(class: u32, place: &Place) -> bool
    ensures { result ≡ is_of class place.now }
{
    place.class.0 == class
}

fn members(alloc: Global, places: &[Place], class: u32) -> Result<Vec<NetPair>, AllocError>
    ensures { IfOk result (λ all. all.items ≡ map pair_at (filter (is_of class) places.now)) }
{
    places
        .iter()
        .filter(|place| is_of(class, place))
        .map(|place| pair(place))
        .collect(alloc)
}

fn class(alloc: Global, places: &[Place], place: &Place) -> Result<Class, NoMemory>
    ensures { IfOk result (λ class. class ≡ class_at places.now place.now) }
{
    Ok(Class {
        nodes: List::from_vec(members(alloc, places, place.class.0)?),
        flagged: place.flagged,
    })
}

fn names(alloc: Global, places: &[Place]) -> Result<Vec<Place>, AllocError>
    ensures { IfOk result (λ all. all.items ≡ filter is_name places.now) }
{
    places
        .iter()
        .copied()
        .filter(|place| place.node == place.class)
        .collect(alloc)
}

fn classes(alloc: Global, places: &[Place], names: &[Place]) -> Result<ClassList, NoMemory>
    ensures { IfOk result (λ classes. classes ≡ map (class_at places.now) names.now) }
{
    let mut classes = List::new(alloc);
    for name in names {
        classes.push(class(alloc, places, name)?)?;
    }
    Ok(classes)
}

/// The line that lists the state.
pub(crate) fn line_of(
    alloc: Global,
    done: u32,
    places: &[Place],
    bound: u32,
) -> Result<LemmaLine, NoMemory>
    ensures { IfOk result (λ line. line ≡ line_of done places.now bound) }
{
    let odd = odd(alloc, places)?;
    let names = names(alloc, places)?;
    let classes = classes(alloc, places, &names)?;
    Ok(LemmaLine {
        bound,
        done,
        odd: List::from_vec(odd),
        classes,
    })
}
