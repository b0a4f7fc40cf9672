// An end that is open, of the kind that its line named.
use packet::sum::Sum;
use packet::xor::Xor;
use station::end::End;

#[derive(Drop)]
pub enum OpenEnd {
    Sum(End<Sum>),
    Xor(End<Xor>),
}
