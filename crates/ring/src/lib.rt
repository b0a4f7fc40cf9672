// A first-in first-out store in its user's memory, for every kind of element that is copied.
#![tactic(auto)]

pub mod iter;
pub mod slots;

ghost use Rattle.std.specs.Prelude.{◌≡◌, [], ◌∷◌, ◌++◌, length, drop, if◌then◌else◌, None, nat_lt};
ghost use Rattle.std.specs.List.{slice_get};
ghost use Rattle.ring.specs.Iter.{left};
ghost use Rattle.ring.specs.Ring.{elements, places, InPlace, Over, Anew};
ghost use Rattle.ring.specs.Slots.{held};

use iter::Iter;
use slots::Span;

// A store of up to `limit` elements in memory that its user lends.
#[derive(Drop)]
pub struct Ring<'a, T: Copy> {
    slots: &'a mut [T],
    span: Span,
}

impl<'a, T: Copy> Ring<'a, T> {
    // An empty store. All memory up to the limit serves; memory beyond it is never written.
    pub fn over(slots: &'a mut [T], limit: usize) -> Self
        ensures { Over slots.old limit result }
    {
        Ring {
            slots,
            span: Span::empty(limit),
        }
    }

    // Starts anew, empty, with up to `limit` places of its memory.
    pub fn restart(&mut self, limit: usize)
        ensures { Anew self.old limit self.new }
    {
        self.span = Span::empty(limit);
    }

    // For how many elements it has places.
    pub fn capacity(&self) -> usize
        ensures { result ≡ places self.now }
    {
        self.span.within(self.slots.len()).limit
    }

    // How many elements it holds.
    pub fn count(&self) -> usize
        ensures { result ≡ length (elements self.now) }
    {
        self.span.within(self.slots.len()).len
    }

    // Adds x as the newest element; false where no place is free. A bool and no Result: x is a copy,
    // so there is nothing to hand back.
    pub fn put(&mut self, x: T) -> bool
        ensures test { result ≡ nat_lt (length (elements self.old)) (places self.old) }
        ensures after { elements self.new ≡ (if result then elements self.old ++ x ∷ [] else elements self.old) }
        ensures place { InPlace self.old self.new }
    {
        slots::put(self.slots, &mut self.span, x)
    }

    // The k-th oldest element, counted from 0.
    pub fn look(&self, k: usize) -> Option<T>
        ensures { result ≡ slice_get (elements self.now) k }
    {
        slots::look(self.slots, self.span, k)
    }

    // Takes the oldest element out, if there is one.
    pub fn take(&mut self) -> Option<T>
        ensures value { result ≡ slice_get (elements self.old) 0 }
        ensures after { elements self.new ≡ drop 1 (elements self.old) }
        ensures place { InPlace self.old self.new }
        ensures unchanged { result ≡ None → self.new ≡ self.old }
    {
        let mut rest = self.span;
        let oldest = self.take_from(&mut rest);
        self.span = rest;
        oldest
    }

    // Takes the oldest element of the memory out of a span of it. Tried in `take` itself: that the
    // slice is the same after it was lent there as `&` stays open (`returns-clause-after`).
    fn take_from(&self, span: &mut Span) -> Option<T>
        ensures value { result ≡ slice_get (held self.now.slots.now span.old) 0 }
        ensures after { held self.now.slots.now span.new ≡ drop 1 (held self.now.slots.now span.old) }
        ensures limit { span.new.limit ≡ span.old.limit }
        ensures unchanged { result ≡ None → span.new ≡ span.old }
    {
        slots::take(self.slots, span)
    }

    // Its elements, from the oldest on.
    pub fn iter(&self) -> Iter<'_, T>
        ensures { left result ≡ elements self.now }
    {
        Iter {
            slots: self.slots,
            span: self.span,
        }
    }
}
