// Orders: operations whose arguments are known to be in bounds, so that no function has to ask it of them.
// kept: a type beside `Op`, which is what a sheet writes, public and with arguments of any size.
// kept: Options and no TryFrom: nothing is told of why an argument is refused.
ghost use Rattle.std.specs.Prelude.{◌≡◌, ◌<◌, ◌≤◌, MatchOption};

use program::Op;
use value::Operation;

// A number below N: of a register, a cell, a constant or a task.
#[derive(Clone, Copy)]
pub(crate) struct Index<const N: usize> {
    pub(crate) index: usize,
    ghost below: { index < N },
}

pub(crate) type Register = Index<4>;

pub(crate) type Cell = Index<64>;

pub(crate) type Constant = Index<64>;

pub(crate) type Task = Index<16>;

impl<const N: usize> Index<N> {
    fn new(number: u8) -> Option<Self>
        ensures { MatchOption result (N ≤ number) (λ i. i.index ≡ number) }
    {
        let index = number as usize;
        if index < N {
            Some(Index { index })
        } else {
            None
        }
    }
}

// An operation whose arguments a station has: one of four registers, of 64 cells or constants, of 16 tasks.
#[derive(Clone, Copy)]
pub(crate) enum Order {
    Finish,
    Read {
        to: Register,
        cell: Cell,
    },
    Write {
        cell: Cell,
        from: Register,
    },
    Constant {
        to: Register,
        constant: Constant,
    },
    Apply {
        operation: Operation,
        to: Register,
        left: Register,
        right: Register,
    },
    Jump {
        target: u16,
    },
    JumpIfFalse {
        test: Register,
        target: u16,
    },
    Await {
        test: Register,
    },
    Start {
        task: Task,
    },
    Leave,
    Enter,
    Protect {
        cell: Cell,
    },
    Unprotect {
        cell: Cell,
    },
}

impl Order {
    ghost use Rattle.engine.specs.Lookup.{bounded};
    ghost use Rattle.engine.specs.Orders.{ordered_if};

    // None where an argument is one that no station has.
    pub(crate) fn of(op: Op) -> Option<Order>
        ensures { ordered_if result ≡ bounded op }
    {
        Some(match op {
            Op::Finish => Order::Finish,
            Op::Read { to, cell } => Order::Read {
                to: Index::new(to)?,
                cell: Index::new(cell)?,
            },
            Op::Write { cell, from } => Order::Write {
                cell: Index::new(cell)?,
                from: Index::new(from)?,
            },
            Op::Constant { to, constant } => Order::Constant {
                to: Index::new(to)?,
                constant: Index::new(constant)?,
            },
            Op::Apply {
                operation,
                to,
                left,
                right,
            } => Order::Apply {
                operation,
                to: Index::new(to)?,
                left: Index::new(left)?,
                right: Index::new(right)?,
            },
            Op::Jump { target } => Order::Jump { target },
            Op::JumpIfFalse { test, target } => Order::JumpIfFalse {
                test: Index::new(test)?,
                target,
            },
            Op::Await { test } => Order::Await {
                test: Index::new(test)?,
            },
            Op::Start { task } => Order::Start {
                task: Index::new(task)?,
            },
            Op::Leave => Order::Leave,
            Op::Enter => Order::Enter,
            Op::Protect { cell } => Order::Protect {
                cell: Index::new(cell)?,
            },
            Op::Unprotect { cell } => Order::Unprotect {
                cell: Index::new(cell)?,
            },
        })
    }
}
