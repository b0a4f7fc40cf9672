// The elements of a store one by one, from the oldest on.
ghost use Rattle.std.specs.Iterator.{YieldsFirst, item_count};
ghost use Rattle.ring.specs.Iter.{left};

use crate::slots;
use crate::slots::Span;

// The elements of the memory that are still to come.
#[derive(Drop)]
pub struct Iter<'r, T: Copy> {
    pub(crate) slots: &'r [T],
    pub(crate) span: Span,
}

impl<'r, T: Copy> Iterator for Iter<'r, T> {
    type Item = T;

    ghost next_gives = { YieldsFirst left };

    ghost remaining = { item_count left };

    fn next(&mut self) -> Option<T> {
        slots::take(self.slots, &mut self.span)
    }
}
