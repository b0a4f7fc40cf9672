// The line of a script, over two media of its own, as data.
use line::Line;
use named_media::chosen::ChosenMedium;
use packet::sum::Sum;
use packet::xor::Xor;

// The media from west to east and from east to west.
#[derive(Drop)]
pub struct LineMedia<'a, 'p> {
    pub eastward: ChosenMedium<'a, 'p>,
    pub westward: ChosenMedium<'a, 'p>,
}

// A line that is open, of the kind that its opening named.
#[derive(Drop)]
pub enum OpenLine {
    Sum(Line<Sum>),
    Xor(Line<Xor>),
}

#[derive(Drop)]
pub struct JoinedLine<'a, 'p> {
    pub line: Option<OpenLine>,
    pub media: LineMedia<'a, 'p>,
}

pub mod running;
