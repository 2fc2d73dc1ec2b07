// Two sets of numbers, each given by spans in any order, put together in one sweep from left to right.
ghost use Rattle.std.specs.Prelude.{◌≡◌, ◌++◌, IfOk, OnOk};
ghost use Rattle.std.specs.List.{flat_map};
ghost use Rattle.box_geom.specs.Sweeping.{applied, events_of, all_events, is_held, has_slot, after};
ghost use Rattle.box_geom.specs.Sweeping.{slots as slots_of, all_slots as all_slots_of, AreRangesOf};
ghost use Rattle.box_geom.specs.declared.sweep.Side.TheVariants.{First, Second};

use crate::block::Block;
use crate::ranges::{XRange, joined};
use std::alloc::{AllocError, Global};

/// How two sets are put together.
#[derive(Clone, Copy, Debug, PartialEq, Eq)]
pub enum Operation {
    Both,
    Either,
    Minus,
}

/// One of the two sets.
#[derive(Clone, Copy, Debug, PartialEq, Eq)]
pub enum Side {
    First,
    Second,
}

// How far each set reaches from a place on.
#[derive(Clone, Copy, Debug, PartialEq, Eq, PartialOrd, Ord)]
pub struct Event {
    at: i32,
    first: i32,
    second: i32,
}

fn is_meant(operation: Operation, first: bool, second: bool) -> bool
    ensures { result ≡ applied operation first second }
{
    match operation {
        Operation::Both => first && second,
        Operation::Either => first || second,
        Operation::Minus => first && !second,
    }
}

fn does_hold(operation: Operation, state: &Event) -> bool
    ensures { result ≡ is_held operation state.now }
{
    is_meant(operation, state.at < state.first, state.at < state.second)
}

fn does_have_slot(operation: Operation, state: &Event, event: &Event) -> bool
    ensures { result ≡ has_slot operation state.now event.now }
{
    does_hold(operation, state) && state.at < event.at
}

fn passed(state: &Event, event: &Event) -> Event
    ensures { result ≡ after state.now event.now }
{
    Event {
        at: event.at,
        first: state.first.max(event.first),
        second: state.second.max(event.second),
    }
}

fn ends_of_block(side: Side, block: &Block) -> [Event; 2]
    ensures { result ≡ events_of side block.now }
{
    let end = Event {
        at: block.x2,
        first: block.x2,
        second: block.x2,
    };
    match side {
        Side::First => [
            Event {
                at: block.x1,
                first: block.x2,
                second: block.x1,
            },
            end,
        ],
        Side::Second => [
            Event {
                at: block.x1,
                first: block.x1,
                second: block.x2,
            },
            end,
        ],
    }
}

fn add_events(events: &mut Vec<Event>, side: Side, blocks: &[Block]) -> Result<(), AllocError>
    ensures { OnOk result (events.new.items ≡ events.old.items ++ flat_map (events_of side) blocks.now) }
{
    for block in blocks {
        events.extend_from_slice(&ends_of_block(side, block))?;
    }
    Ok(())
}

fn events_of_both(
    alloc: Global,
    first: &[Block],
    second: &[Block],
) -> Result<Vec<Event>, AllocError>
    ensures { IfOk result (λ v. v.items ≡ all_events first.now second.now) }
{
    let mut events = Vec::new(alloc);
    add_events(&mut events, Side::First, first)?;
    add_events(&mut events, Side::Second, second)?;
    Ok(events)
}

fn slots(
    alloc: Global,
    operation: Operation,
    first: &Event,
    rest: &[Event],
) -> Result<Vec<XRange>, AllocError>
    ensures { IfOk result (λ v. v.items ≡ slots_of operation first.now rest.now) }
{
    let mut out = Vec::new(alloc);
    let mut state = *first;
    for event in rest {
        if does_have_slot(operation, &state, event) {
            out.push(XRange {
                x1: state.at,
                x2: event.at,
            })?;
        }
        state = passed(&state, event);
    }
    Ok(out)
}

fn all_slots(
    alloc: Global,
    operation: Operation,
    events: &[Event],
) -> Result<Vec<XRange>, AllocError>
    ensures { IfOk result (λ v. v.items ≡ all_slots_of operation events.now) }
{
    match events.split_first() {
        None => Ok(Vec::new(alloc)),
        Some((first, rest)) => slots(alloc, operation, first, rest),
    }
}

// The ranges of x that the operation makes of the columns of two lists of rectangles.
pub(crate) fn ranges(
    alloc: Global,
    operation: Operation,
    first: &[Block],
    second: &[Block],
) -> Result<Vec<XRange>, AllocError>
    ensures { IfOk result (λ v. AreRangesOf operation first.now second.now v.items) }
{
    let mut events = events_of_both(alloc, first, second)?;
    events.sort()?;
    let spans = all_slots(alloc, operation, events.as_slice())?;
    let made = joined(alloc, spans.as_slice())?;
    Ok(made)
}
