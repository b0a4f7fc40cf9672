// What an offer answers: the burst is under way as it is; or it is not, or has a byte altered. No Result: spoilt is no error
// that a caller hands on, and a `From<bool>` would say less plainly which is which.
ghost use Rattle.std.specs.Prelude.{Some};
ghost use Rattle.medium.specs.Offered.{name_of};

use std::fmt;

#[derive(Clone, Copy, Debug, PartialEq, Eq)]
pub enum Offer {
    Whole,
    Spoilt,
}

impl fmt::Display for Offer {
    ghost output = { λ offer. Some (name_of offer) };

    fn fmt<W: fmt::Write>(&self, f: &mut fmt::Formatter<W>) -> fmt::Result {
        f.write_str(match self {
            Offer::Whole => "whole",
            Offer::Spoilt => "spoilt",
        })
    }
}
