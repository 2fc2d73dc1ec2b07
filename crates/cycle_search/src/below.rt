// A table of which nets are below others: a look-up in place of a search for a path.
ghost use Rattle.std.specs.Prelude.{◌≡◌, ◌↔◌, ◌<◌, ◌⊎◌, IfOk, IsTrue, List, All, false, true, get_or, slice_set};
ghost use Rattle.row_cycles.specs.Above.{Follows, IsAbove};
ghost use Rattle.row_cycles.specs.declared.above.NetAbove.{NetAbove as AboveOf};
ghost use Rattle.cycle_search.specs.Below.{HasPair, IsSound, place_of};

use cell_num::{NetNo, NoMemory};
use row_cycles::NetAbove;
use std::alloc::Global;

/// Which of the nets numbered below a number are below others. It may know less than what follows from some pairs: then
/// a search looks at more states.
#[derive(Drop)]
pub(crate) struct Below {
    pub nets: u32,
    /// Those below the first net, then those below the second one, and so on.
    pub marks: Vec<bool>,
}

impl Below {
    /// No net is below another.
    #[tactic(auto, using(crate::proofs::Table::none_sound))]
    pub(crate) fn new(alloc: Global, nets: u32) -> Result<Below, NoMemory>
        ensures { IfOk result (λ below. (pairs : List AboveOf) → IsSound pairs below) }
    {
        let marks = vec![in alloc; false; nets as usize * nets as usize]?;
        Ok(Below { nets, marks })
    }

    /// The same table again.
    pub(crate) fn copied(&self, alloc: Global) -> Result<Below, NoMemory>
        ensures nets { IfOk result (λ copy. copy.nets ≡ self.now.nets) }
        ensures marks { IfOk result (λ copy. copy.marks.items ≡ self.now.marks.items) }
    {
        let mut marks = Vec::new(alloc);
        marks.extend_from_slice(self.marks.as_slice())?;
        Ok(Below {
            nets: self.nets,
            marks,
        })
    }

    // Where the pair has its mark.
    fn place(&self, a: &NetAbove) -> usize
        ensures { result ≡ place_of self.now.nets a.now }
    {
        a.upper.0 as usize * self.nets as usize + a.lower.0 as usize
    }

    fn is_net(&self, net: NetNo) -> bool
        ensures { IsTrue result ↔ (net.0 < self.now.nets) }
    {
        net.0 < self.nets
    }

    fn mark_at(&self, place: usize) -> bool
        ensures { result ≡ get_or self.now.marks.items place false }
    {
        match self.marks.get(place) {
            Some(mark) => *mark,
            None => false,
        }
    }

    fn set_mark(&mut self, place: usize)
        ensures nets { self.new.nets ≡ self.old.nets }
        ensures marks { (self.new.marks.items ≡ self.old.marks.items)
            ⊎ (self.new.marks.items ≡ slice_set self.old.marks.items place true) }
    {
        if self.marks.len() <= place {
            return;
        }
        self.marks[place] = true;
    }

    /// Whether the table has the lower net below the upper one.
    pub(crate) fn has(&self, a: &NetAbove) -> bool
        ensures { IsTrue result ↔ HasPair self.now a.now }
    {
        if !self.is_net(a.lower) {
            return false;
        }
        self.mark_at(self.place(a))
    }

    /// Whether it has each of the pairs.
    pub(crate) fn has_all(&self, pairs: &[NetAbove]) -> bool
        ensures { IsTrue result ↔ All (HasPair self.now) pairs.now }
    {
        for a in pairs {
            if !self.has(a) {
                return false;
            }
        }
        true
    }

    // Marks the pair.
    fn mark(&mut self, a: &NetAbove)
        ensures nets { self.new.nets ≡ self.old.nets }
        ensures sound { (pairs : List AboveOf) → IsSound pairs self.old → Follows pairs a.now
            → IsSound pairs self.new }
    {
        if !self.is_net(a.lower) {
            return;
        }
        let place = self.place(a);
        self.set_mark(place);
    }

    // Marks the lower net and all below it as below the upper one.
    fn mark_below(&mut self, upper: NetNo, lower: NetNo)
        ensures nets { self.new.nets ≡ self.old.nets }
        ensures sound { (pairs : List AboveOf) → IsSound pairs self.old → IsAbove pairs upper lower
            → IsSound pairs self.new }
    {
        self.mark(&NetAbove { upper, lower });
        for net in 0..self.nets {
            let net = NetNo(net);
            let under = NetAbove {
                upper: lower,
                lower: net,
            };
            if !self.has(&under) {
                continue;
            }
            self.mark(&NetAbove { upper, lower: net });
        }
    }

    /// Adds a pair, and what follows from it and from those before.
    pub(crate) fn add(&mut self, a: &NetAbove)
        ensures { (pairs : List AboveOf) → IsSound pairs self.old → Follows pairs a.now → IsSound pairs self.new }
    {
        self.mark_below(a.upper, a.lower);
        for net in 0..self.nets {
            let net = NetNo(net);
            let over = NetAbove {
                upper: net,
                lower: a.upper,
            };
            if !self.has(&over) {
                continue;
            }
            self.mark_below(net, a.lower);
        }
    }
}
