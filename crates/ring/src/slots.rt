// The three functions of a first-in first-out store in a lent slice, written once for every
// kind of element that is copied (a rule of the project: fixed memory, and no heap).
ghost use Rattle.std.specs.Prelude.{◌≡◌, ◌<◌, ◌≤◌, [], ◌∷◌, ◌++◌, length, drop, if◌then◌else◌, None, nat_lt};
ghost use Rattle.std.specs.List.{slice_get};
ghost use Rattle.ring.specs.Slots.{held, room, place, Within};

// Where the elements lie: `len` of them from the place `head` on, and on at the first place
// where they pass the end. At most the first `limit` places of the memory serve.
#[derive(Clone, Copy)]
pub struct Span {
    pub(crate) limit: usize,
    pub(crate) head: usize,
    pub(crate) len: usize,
}

impl Span {
    // No elements, in up to `limit` places.
    pub fn empty(limit: usize) -> Span
        ensures limit { result.limit ≡ limit }
        ensures head { result.head ≡ 0 }
        ensures len { result.len ≡ 0 }
    {
        Span {
            limit,
            head: 0,
            len: 0,
        }
    }

    // The same elements, by numbers that lie within a memory of `size` places.
    pub(crate) fn within(self, size: usize) -> Span
        ensures { Within size self result }
    {
        let limit = size.min(self.limit);
        Span {
            limit,
            head: self.head.min(limit),
            len: self.len.min(limit),
        }
    }

    // The place of the k-th oldest element, or of the next one.
    fn place(self, k: usize) -> usize
        requires { (self.head ≤ self.limit) × (k < self.limit) }
        ensures { result ≡ place self.limit self.head k }
    {
        let room = self.limit - self.head;
        if k < room { self.head + k } else { k - room }
    }
}

// Adds x as the newest element; false where no place is free (a bool, as for `Ring::put`). That it keeps `limit` is said here
// and of `take`: these alone change a span.
pub fn put<T: Copy>(slots: &mut [T], span: &mut Span, x: T) -> bool
    ensures test { result ≡ nat_lt (length (held slots.old span.old)) (room slots.old span.old) }
    ensures after { held slots.new span.new ≡ (if result then held slots.old span.old ++ x ∷ [] else held slots.old span.old) }
    ensures limit { span.new.limit ≡ span.old.limit }
    ensures beyond { drop span.old.limit slots.new ≡ drop span.old.limit slots.old }
{
    let s = span.within(slots.len());
    if s.len >= s.limit {
        return false;
    }
    let i = s.place(s.len);
    slots[i] = x;
    span.len += 1;
    true
}

// The k-th oldest element, counted from 0.
pub fn look<T: Copy>(slots: &[T], span: Span, k: usize) -> Option<T>
    ensures { result ≡ slice_get (held slots.now span) k }
{
    let s = span.within(slots.len());
    if k >= s.len {
        return None;
    }
    let i = s.place(k);
    Some(slots[i])
}

// Takes the oldest element out, if there is one.
pub fn take<T: Copy>(slots: &[T], span: &mut Span) -> Option<T>
    ensures value { result ≡ slice_get (held slots.now span.old) 0 }
    ensures after { held slots.now span.new ≡ drop 1 (held slots.now span.old) }
    ensures limit { span.new.limit ≡ span.old.limit }
    ensures unchanged { result ≡ None → span.new ≡ span.old }
{
    let s = span.within(slots.len());
    if s.len == 0 {
        return None;
    }
    let i = s.place(0);
    span.head = i + 1;
    span.len = s.len - 1;
    Some(slots[i])
}
