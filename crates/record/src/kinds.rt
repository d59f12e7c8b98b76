// The kinds of a chunk. Which kind a chunk has is in the rules.
#[derive(Clone, Copy)]
pub enum Kind {
    Start,
    InUse,
    Ordinary,
    Donor,
    Top,
    End,
}
