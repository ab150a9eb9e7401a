ghost use Rattle.std.specs.Prelude.{◌≡◌};
ghost use Rattle.value.specs.Codes.{cause_number, fault_number, operation_number, NumberRead};

// What an operation does with two values of a kind.
#[derive(Clone, Copy, PartialEq, Eq, Debug)]
pub enum Operation {
    Sum = 0,
    Difference = 1,
    Smaller = 2,
    Equal = 3,
    Less = 4,
    Quotient = 5,
}

// Why an operation has no value.
#[derive(Clone, Copy, PartialEq, Eq, Debug)]
pub enum Cause {
    ZeroDivisor = 1,
    Overflow = 2,
    Blank = 3,
    Mixed = 4,
    OutOfRange = 5,
}

// Why bytes in a value's place are no value: no such form, or a form past its bound.
#[derive(Clone, Copy, PartialEq, Eq, Debug)]
pub enum Fault {
    Form = 3,
    Bound = 4,
}

// The number that a sheet has for the operation.
impl From<Operation> for u8 {
    ghost from_gives = { λ operation n. n ≡ operation_number operation };

    fn from(operation: Operation) -> u8 {
        operation as u8
    }
}

// The operation that has the number.
impl TryFrom<u64> for Operation {
    type Error = Fault;

    ghost try_from_gives = { NumberRead };

    fn try_from(n: u64) -> Result<Operation, Fault> {
        match n {
            0 => Ok(Operation::Sum),
            1 => Ok(Operation::Difference),
            2 => Ok(Operation::Smaller),
            3 => Ok(Operation::Equal),
            4 => Ok(Operation::Less),
            5 => Ok(Operation::Quotient),
            _ => Err(Fault::Bound),
        }
    }
}

// The number that a sheet has for the cause.
impl From<Cause> for u8 {
    ghost from_gives = { λ cause n. n ≡ cause_number cause };

    fn from(cause: Cause) -> u8 {
        cause as u8
    }
}

// The number that the reader of a sheet gives.
impl From<Fault> for u8 {
    ghost from_gives = { λ fault n. n ≡ fault_number fault };

    fn from(fault: Fault) -> u8 {
        fault as u8
    }
}
