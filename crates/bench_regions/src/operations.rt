use std::fmt;
use tr_base::NoMemory;
use tr_region::Region;

/// An operation on two regions.
#[derive(Clone, Copy)]
pub enum Operation {
    Union,
    Meet,
    Minus,
}

impl Operation {
    pub fn apply(self, a: &Region, b: &Region) -> Result<Region, NoMemory> {
        match self {
            Operation::Union => a.union(b),
            Operation::Meet => a.meet(b),
            Operation::Minus => a.minus(b),
        }
    }
}

impl fmt::Display for Operation {
    fn fmt<W: fmt::Write>(&self, f: &mut fmt::Formatter<W>) -> fmt::Result {
        f.write_str(match self {
            Operation::Union => "union",
            Operation::Meet => "meet",
            Operation::Minus => "minus",
        })
    }
}
