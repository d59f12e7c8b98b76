// What is printed of a chunk: its place, its size and what it is.
use std::fmt;

#[derive(Clone, Copy)]
pub enum Kind {
    Start,
    End,
    InUse,
    Donor,
    Top,
    Free { bin: u32 },
}

#[derive(Clone, Copy)]
pub struct Line {
    pub chunk: u32,
    pub size: u32,
    pub kind: Kind,
}

impl fmt::Display for Kind {
    fn fmt<W: fmt::Write>(&self, f: &mut fmt::Formatter<W>) -> fmt::Result {
        match self {
            Kind::Start => f.write_str("start"),
            Kind::End => f.write_str("end"),
            Kind::InUse => f.write_str("inuse"),
            Kind::Donor => f.write_str("donor"),
            Kind::Top => f.write_str("top"),
            Kind::Free { bin } => write!(f, "free {bin}"),
        }
    }
}

impl fmt::Display for Line {
    fn fmt<W: fmt::Write>(&self, f: &mut fmt::Formatter<W>) -> fmt::Result {
        let Line { chunk, size, kind } = self;
        write!(f, "{chunk} {size} {kind}")
    }
}
