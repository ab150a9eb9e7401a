use crate::texts::{check_refused, repeated};
use sheet::Sheet;
use std::test::Fail;
use value::Whole;

// A head, a part so many times and a tail, with the number and line of the refusal; 0 and 0 where it is read.
struct Case(&'static str, usize, &'static str, &'static str, u8, usize);

const CELL: &str = "(cell p (n 0))\n";

const CONST: &str = "(const (n 0))\n";

const TASK: &str = "(task 0)\n(f)\n";

const CASES: [Case; 32] = [
    Case("", 64, CELL, "", 0, 0),
    Case("", 64, CELL, CELL, 5, 65),
    Case("", 64, CELL, "(cell u (n 2147483648))\n", 4, 65),
    Case("", 64, CELL, "(cell p (n 00))\n", 3, 65),
    Case("", 64, CELL, "(task 0)\n(r 0 63)\n(f)\n", 0, 0),
    Case("", 64, CELL, "(task 0)\n(r 0 64)\n(f)\n", 4, 66),
    Case(CELL, 64, CONST, "", 0, 0),
    Case(CELL, 64, CONST, CONST, 5, 66),
    Case(CELL, 64, CONST, "(const (n 2147483648))\n", 4, 66),
    Case(CELL, 64, CONST, "(cell p (n 2147483648))\n", 3, 66),
    Case(CELL, 64, CONST, "(task 0)\n(k 0 63)\n(f)\n", 0, 0),
    Case(CELL, 64, CONST, "(task 0)\n(k 0 64)\n(f)\n", 4, 67),
    Case("", 16, TASK, "", 0, 0),
    Case("", 16, TASK, TASK, 5, 33),
    Case("", 16, TASK, "(task 256)\n", 4, 33),
    Case("", 16, TASK, "(const (n 2147483648))\n", 3, 33),
    Case("", 15, TASK, "(task 0)\n(s 15)\n(f)\n", 0, 0),
    Case("", 15, TASK, "(task 0)\n(s 16)\n(f)\n", 7, 32),
    Case("(task 0)\n", 1024, "(f)\n", "", 0, 0),
    Case("(task 0)\n", 1024, "(f)\n", "(f)\n", 5, 1026),
    Case("(task 0)\n", 1024, "(f)\n", "(b 4)\n", 4, 1026),
    Case("(task 0)\n", 1024, "(f)\n", "(b)\n", 3, 1026),
    Case("(task 0)\n", 1024, "(f)\n", "(task 0)\n", 6, 1026),
    Case("(task 0)\n(f)\n(task 0)\n", 1023, "(f)\n", "", 0, 0),
    Case("(task 0)\n(f)\n(task 0)\n", 1023, "(f)\n", "(f)\n", 5, 1027),
    Case("(task 0)\n", 1023, "(l)\n", "(j 1023)\n", 0, 0),
    Case("(task 0)\n", 1023, "(l)\n", "(j 1024)\n", 7, 1025),
    Case("(task 0)\n", 1023, "(l)\n", "(z 0 0)\n", 6, 1),
    Case("", 65536, "\n", "", 3, 1),
    Case("", 65537, "\n", "", 2, 0),
    Case(CELL, 65520, "x", "\n", 3, 2),
    Case(CELL, 65521, "x", "\n", 2, 0),
];

#[test]
fn limits(rt: HostRuntime) -> Result<(), Fail> {
    for Case(head, times, part, tail, number, line) in &CASES {
        let text = repeated(rt.alloc(), *head, *times, *part, *tail)?;
        let refusal = Sheet::<Whole>::read(text.as_slice()).err();
        check_refused(&rt, refusal, *number, *line, *tail);
    }
    Ok(())
}
