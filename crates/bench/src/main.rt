// The bench: reads a sheet of whole numbers and calls from standard input, runs them over a station with marks, and
// prints an answer for each call and then the cells.
#![tactic(auto)]

use book::marks::Marks;
use session::{Call, CallsLine, call_of, calls_line};
use sheet::{LineFault, Notice, Refusal as SheetRefusal};
use station::{PLACES, Refusal, Station};
use std::alloc::Global;
use std::io;
use std::io::{Read, Write};
use value::{Kind, Whole};

// A run: the station with its working slice, and what is to be printed.
#[derive(Drop)]
struct Run {
    station: Station<Marks>,
    slice: [Whole; PLACES],
    out: Vec<u8>,
}

impl Run {
    fn new(alloc: Global) -> Run {
        Run {
            station: Station::new(Marks::new()),
            slice: [Whole::ZERO; PLACES],
            out: Vec::new(alloc),
        }
    }

    fn print(&mut self, notice: Notice) -> io::Result<()> {
        writeln!(self.out, "{notice}")
    }

    fn make(&mut self, call: Call) -> Result<(), Refusal> {
        let Run { station, slice, .. } = self;
        match call {
            Call::Admit(t) => station.admit(slice, t),
            Call::Open(t) => station.open(slice, t),
            Call::Step(t) => station.step(slice, t),
            Call::Commit(t) => station.commit(slice, t),
            Call::Undo(t) => station.undo(slice, t),
        }
    }

    // Makes the call that a line writes. A line that is no call is told by its number.
    fn answer(&mut self, text: &[u8], line: usize) -> Result<(), Notice> {
        let Some(call) = call_of(text) else {
            let fault = LineFault::BadForm;
            return Err(SheetRefusal::Line { fault, line }.told());
        };
        self.make(call).map_err(|refusal| refusal.told())
    }

    // Prints one answer a line; the first has the number `first` in the whole input. A last line without a line feed is no call.
    fn answer_all(&mut self, calls: &[u8], first: usize) -> io::Result<()> {
        for (i, line) in calls.split_inclusive(|b| *b == b'\n').enumerate() {
            let text = line.strip_suffix(b"\n").unwrap_or(b"");
            match self.answer(text, first.saturating_add(i)) {
                Ok(()) => self.out.extend_from_slice(b"(ok)\n")?,
                Err(notice) => self.print(notice)?,
            }
        }
        Ok(())
    }

    fn print_cells(&mut self) -> io::Result<()> {
        let Run {
            station,
            slice,
            out,
        } = self;
        for cell in (0..64).filter_map(|c| station.cell(slice, c)) {
            out.write_all(cell.line().as_slice())?;
        }
        Ok(())
    }

    // Reads the sheet, and then makes the calls, whose first line has this number in the whole input.
    fn start(&mut self, sheet: &[u8], calls: &[u8], first: usize) -> io::Result<()> {
        match self.station.read(&mut self.slice, sheet) {
            Ok(_) => {
                self.answer_all(calls, first)?;
                self.print_cells()
            }
            Err(refusal) => self.print(refusal.told()),
        }
    }
}

fn main(rt: HostRuntime) -> io::Result<()> {
    let mut input = Vec::new(rt.alloc());
    rt.stdin().read_to_end(&mut input)?;
    let text = input.as_slice();
    let mut run = Run::new(rt.alloc());
    match calls_line(text) {
        Some(CallsLine { at, line }) => run.start(&text[..at], &text[at + 8..], line + 1)?,
        None => run.start(text, &[], 1)?,
    }
    rt.stdout().write_all(run.out.as_slice())
}
