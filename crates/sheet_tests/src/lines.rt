use crate::texts::{check_refused, repeated};
use sheet::{Refusal, Sheet};
use std::alloc::Global;
use std::process::Abort;
use std::test::Fail;
use value::{Reading, Whole};

// Parts between commas, each tried on its own, and the number of their refusal; 0 where they are read.
struct Parts(&'static str, u8);

const WHOLES: [Parts; 7] = [
    Parts("(n 0),(n -1),(n 2147483647),(n -2147483648)", 0),
    Parts("(n 2147483648),(n -2147483649)", 4),
    Parts("(n 9999999999),(n -9999999999)", 4),
    Parts("(n 10000000000),(n -10000000000)", 3),
    Parts("(n 00),(n 01),(n -0),(n -01),(n +1),(n 1a),(n ),(n)", 3),
    Parts(" (n 1),(n  1),(n 1 ),(n\t1),(n 1)\r,(N 1)", 3),
    Parts("n 1,(n 1,(n 1)),,(e),(a 00000000)", 3),
];

const READINGS: [Parts; 6] = [
    Parts("(e),(n 2147483647),(a 00000000),(a 43b40000)", 0),
    Parts("(n 2147483648),(a 43b40001),(a 80000000)", 4),
    Parts("(a 7f800000),(a 7fc00000),(a ffffffff)", 4),
    Parts("(a 43B40000),(a 43b4000),(a 043b40000)", 3),
    Parts("(a 43g40000),(a),(a ),(A 43b40000)", 3),
    Parts("(E),(e ),(e 0),(n -0)", 3),
];

const OWED: [Parts; 3] = [
    Parts("0,1,255", 0),
    Parts("256,9999999999", 4),
    Parts("10000000000,00,01,-0,-1,+1, 1,1 ,1 1,a,", 3),
];

const OPERATIONS: [Parts; 14] = [
    Parts("(r 3 0),(w 0 3),(k 3 0),(b 3),(p 0),(u 0)", 0),
    Parts("(r 4 0),(w 0 4),(k 4 0),(b 4),(z 4 0),(z 4 9)", 4),
    Parts("(r 0 1),(w 1 0),(k 0 1),(p 1),(u 1)", 4),
    Parts("(a 0 0 0 0),(a 5 3 3 3)", 0),
    Parts("(a 6 0 0 0),(a 0 4 0 0),(a 0 0 4 0),(a 0 0 0 4)", 4),
    Parts("(r 256 0),(r 0 256),(r 9999999999 0)", 4),
    Parts("(r 10000000000 0),(r 00 0),(r -0 0),(r +0 0)", 3),
    Parts("(r 0  0),(r\t0 0),(r 0 0)\r,(R 0 0),(r 0 0 ), (r 0 0)", 3),
    Parts("(r 0),(r 0 0 0),(a 0 0 0),(a 0 0 0 0 0),(j),(f 0)", 3),
    Parts("(x),(ff),(f ),(f,f),(),", 3),
    Parts("(l),(e),(f),(j 0),(j 1),(z 3 0),(z 0 1),(s 0)", 0),
    Parts("(j 2),(j 65536),(z 0 2),(z 0 65536),(s 1),(s 256)", 7),
    Parts("(j 9999999999),(z 0 9999999999),(s 9999999999)", 7),
    Parts("(j 10000000000),(s 10000000000)", 3),
];

// Where a part is tried: between a head and a tail, so that it stands on the line.
struct Frame(&'static str, &'static str, usize);

const CELL: Frame = Frame("(cell p ", ")\n", 1);

const CONST: Frame = Frame("(cell p (e))\n(const ", ")\n", 2);

const TASK: Frame = Frame("(task ", ")\n(f)\n", 1);

const IN_TASK: Frame = Frame("(cell p (n 0))\n(const (n 0))\n(task 0)\n", "\n(f)\n", 4);

// Each part is told as its row says.
fn try_each<F: Fn(&[u8]) -> Option<Refusal>>(
    rt: &impl Abort,
    heap: Global,
    frame: &Frame,
    cases: &[Parts],
    refused: F,
) -> Result<(), Fail>
    requires { F.IsAlwaysCallable refused }
{
    let Frame(head, tail, line) = frame;
    for Parts(parts, number) in cases {
        for part in parts.split(',') {
            let text = repeated(heap, head, 1, part, tail)?;
            check_refused(rt, refused(text.as_slice()), *number, *line, part);
        }
    }
    Ok(())
}

#[test]
fn lines(rt: HostRuntime) -> Result<(), Fail> {
    let wholes = |text: &[u8]| Sheet::<Whole>::read(text).err();
    try_each(&rt, rt.alloc(), &CELL, &WHOLES, wholes)?;
    try_each(&rt, rt.alloc(), &CONST, &READINGS, |text| {
        Sheet::<Reading>::read(text).err()
    })?;
    try_each(&rt, rt.alloc(), &TASK, &OWED, wholes)?;
    try_each(&rt, rt.alloc(), &IN_TASK, &OPERATIONS, wholes)
}
