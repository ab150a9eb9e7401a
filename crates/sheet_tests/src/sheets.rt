use crate::texts::check_refused;
use sheet::Sheet;
use value::Whole;

// A sheet of whole numbers, and the number and line of its refusal; 0 and 0 where it is read.
struct Case(&'static str, u8, usize);

const CASES: [Case; 38] = [
    Case("", 0, 0),
    Case("(cell u (n 0))\n(const (n 0))\n(task 0)\n(f)\n", 0, 0),
    // Every line is ended, and none is empty.
    Case("(cell p (n 0))", 3, 1),
    Case("(cell p (n 0))\n(cell u (n 0))", 3, 2),
    Case("\n", 3, 1),
    Case("(cell p (n 0))\n\n", 3, 2),
    Case("(cell p (n 0))\n\n(task 0)\n(f)\n", 3, 2),
    Case("(Cell p (n 0))\n", 3, 1),
    Case("(cell x (n 0))\n", 3, 1),
    Case("(cell p (n 0))\n(const  (n 0))\n", 3, 2),
    // Cells, then constants, then tasks; order comes before bounds.
    Case("(const (n 0))\n(task 0)\n(f)\n", 0, 0),
    Case("(const (n 0))\n(cell p (n 0))\n", 3, 2),
    Case("(const (n 0))\n(cell p (n 2147483648))\n", 3, 2),
    Case("(task 0)\n(f)\n(cell p (n 0))\n", 3, 3),
    Case("(task 0)\n(f)\n(const (n 2147483648))\n", 3, 3),
    Case("(f)\n", 3, 1),
    Case("(cell p (n 0))\n(r 4 0)\n(task 0)\n", 3, 2),
    // The first line at fault is told.
    Case("(cell p (n 0))\n(const (n 2147483648))\n", 4, 2),
    Case("(task 0)\n(f)\n(task 256)\n(x)\n", 4, 3),
    // How a task ends.
    Case("(task 0)\n", 6, 1),
    Case("(cell p (n 0))\n(const (n 0))\n(task 0)\n", 6, 3),
    Case("(task 0)\n(z 0 0)\n", 6, 1),
    Case("(task 0)\n(l)\n", 6, 1),
    Case("(task 0)\n(f)\n(l)\n", 6, 1),
    Case("(task 0)\n(l)\n(f)\n", 0, 0),
    Case("(task 0)\n(j 0)\n", 0, 0),
    Case("(task 0)\n(task 0)\n(f)\n", 6, 1),
    Case("(task 0)\n(l)\n(f)\n(task 0)\n(l)\n", 6, 4),
    // Where operations lead, after the ends of all tasks.
    Case("(task 0)\n(j 1)\n", 7, 2),
    Case("(task 0)\n(j 1)\n(f)\n", 0, 0),
    Case("(task 0)\n(f)\n(f)\n(task 0)\n(j 1)\n", 7, 5),
    Case("(task 0)\n(z 0 2)\n(f)\n(task 0)\n(j 1)\n", 7, 2),
    Case("(task 0)\n(s 1)\n(f)\n", 7, 2),
    Case("(task 0)\n(s 1)\n(f)\n(task 0)\n(f)\n", 0, 0),
    Case("(task 0)\n(f)\n(task 0)\n(s 2)\n(f)\n", 7, 4),
    Case("(task 0)\n(j 1)\n(task 0)\n(l)\n", 6, 3),
    Case("(task 0)\n(j 1)\n(task 0)\n", 6, 3),
    Case("(task 0)\n(j 1)\n(task 0)\n(r 4 0)\n", 4, 4),
];

#[test]
fn sheets(rt: HostRuntime) {
    for Case(text, number, line) in &CASES {
        let refusal = Sheet::<Whole>::read(text.as_bytes()).err();
        check_refused(&rt, refusal, *number, *line, *text);
    }
}
