ghost use Rattle.std.specs.Prelude.{◌≡◌};
ghost use Rattle.tr_region.specs.Operations as spec;

/// An operation on two sets of points.
#[derive(Clone, Copy, Debug, PartialEq, Eq)]
pub enum Operation {
    /// The points that are in one of the sets, or in both.
    Union,
    /// The points that are in both sets.
    Meet,
    /// The points of the first set that are not in the second.
    Minus,
}

impl Operation {
    /// Whether the operation keeps a point, given whether it is in the first set and in the second.
    pub fn keeps(self, in_first: bool, in_second: bool) -> bool
        ensures { result ≡ spec.keeps self in_first in_second }
    {
        match self {
            Operation::Union => in_first || in_second,
            Operation::Meet => in_first && in_second,
            Operation::Minus => in_first && !in_second,
        }
    }
}

/// An operation as a type, so that generic code has it as a constant.
pub trait Known {
    ghost use Rattle.tr_region.specs.declared.operations.Operation.{Operation};

    ghost operation: { Operation };

    fn value() -> Operation
        ensures { result ≡ operation };
}

pub struct Union;

pub struct Meet;

pub struct Minus;

impl Known for Union {
    ghost use Rattle.tr_region.specs.declared.operations.Operation.{Operation};

    ghost operation = { Operation.Union };

    fn value() -> Operation {
        Operation::Union
    }
}

impl Known for Meet {
    ghost use Rattle.tr_region.specs.declared.operations.Operation.{Operation};

    ghost operation = { Operation.Meet };

    fn value() -> Operation {
        Operation::Meet
    }
}

impl Known for Minus {
    ghost use Rattle.tr_region.specs.declared.operations.Operation.{Operation};

    ghost operation = { Operation.Minus };

    fn value() -> Operation {
        Operation::Minus
    }
}
