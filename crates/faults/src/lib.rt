// Why a task or a station refuses: a cause rises from the value through the task to the station, and nothing is lost on the way.
#![tactic(auto)]

ghost use Rattle.std.specs.Prelude.{◌≡◌};
ghost use Rattle.sheet.specs.Refusals.{notice};
ghost use Rattle.faults.specs.Faults.{no_value, of_task, of_sheet, placed, numbered, told as notice_of};

use sheet::{Notice, Refusal as SheetRefusal};
use value::Cause;

// Why a task's next operation does not run, or its transaction does not commit.
#[derive(Clone, Copy, PartialEq, Eq, Debug)]
pub enum StepFault {
    WrongSide,
    AtEnd,
    Waiting,
    Owned,
    Unprotected,
    NoneLeft,
    TooManyOwed,
    NoValue(Cause),
    NotAtEnd,
    Stale,
}

#[derive(Clone, Copy, PartialEq, Eq, Debug)]
pub enum Side {
    Inside,
    Outside,
}

// A fault with the task that met it, its place and its side.
#[derive(Clone, Copy, PartialEq, Eq, Debug)]
pub struct TaskFault {
    pub task: usize,
    pub place: u16,
    pub side: Side,
    pub fault: StepFault,
}

// Why a station refuses a call. A refused call changes nothing.
#[derive(Clone, Copy)]
pub enum Refusal {
    ShortSlice { task: usize },
    NoSuchTask { task: usize },
    WrongState { task: usize },
    NoneOwed { task: usize },
    Task(TaskFault),
    NotIdle,
    Sheet(SheetRefusal),
}

impl From<Cause> for StepFault {
    ghost from_gives = { λ c r. r ≡ no_value c };

    fn from(cause: Cause) -> StepFault {
        StepFault::NoValue(cause)
    }
}

impl From<TaskFault> for Refusal {
    ghost from_gives = { λ f r. r ≡ of_task f };

    fn from(fault: TaskFault) -> Refusal {
        Refusal::Task(fault)
    }
}

impl From<SheetRefusal> for Refusal {
    ghost from_gives = { λ f r. r ≡ of_sheet f };

    fn from(refusal: SheetRefusal) -> Refusal {
        Refusal::Sheet(refusal)
    }
}

// The result of a step or a commit, with the task, place and side of its fault.
pub fn placing(
    done: Result<(), StepFault>,
    task: usize,
    place: u16,
    side: Side,
) -> Result<(), TaskFault>
    ensures { result ≡ placed task place side done }
{
    done.map_err(|fault| TaskFault {
        task,
        place,
        side,
        fault,
    })
}

impl TaskFault {
    // The fault's number: a cause has one outside and one inside.
    // kept: the numbers stand in one match and not as discriminants, since a cause's hangs on its side
    fn number(self) -> u8
        ensures { result ≡ numbered self.side self.fault }
    {
        match (self.fault, self.side) {
            (StepFault::WrongSide, _) => 13,
            (StepFault::AtEnd, _) => 14,
            (StepFault::Waiting, _) => 15,
            (StepFault::Owned, _) => 16,
            (StepFault::Unprotected, _) => 17,
            (StepFault::NoneLeft, _) => 18,
            (StepFault::TooManyOwed, _) => 19,
            (StepFault::NoValue(_), Side::Outside) => 20,
            (StepFault::NoValue(_), Side::Inside) => 21,
            (StepFault::NotAtEnd, _) => 22,
            (StepFault::Stale, _) => 23,
        }
    }

    fn told(self) -> Notice
        ensures { result ≡ notice_of (of_task self) }
    {
        let (layer, cause) = match self.fault {
            StepFault::NoValue(cause) => (4, u8::from(cause)),
            _ => (3, 0),
        };
        Notice {
            number: self.number(),
            layer,
            first: self.task,
            second: usize::from(self.place),
            cause,
        }
    }
}

impl Refusal {
    // What the refusal tells people.
    pub fn told(self) -> Notice
        ensures { result ≡ notice_of self }
    {
        match self {
            Refusal::ShortSlice { task } => Notice::on_station(1, task),
            Refusal::NoSuchTask { task } => Notice::on_station(10, task),
            Refusal::WrongState { task } => Notice::on_station(11, task),
            Refusal::NoneOwed { task } => Notice::on_station(12, task),
            Refusal::Task(fault) => fault.told(),
            Refusal::NotIdle => Notice::on_station(25, 0),
            Refusal::Sheet(refusal) => refusal.told(),
        }
    }
}
