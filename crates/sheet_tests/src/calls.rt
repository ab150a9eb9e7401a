use session::calls_line;

// An input, and the place and number of its line `(calls)`; 0 and 0 where it has none.
struct Case(&'static str, usize, usize);

const CASES: [Case; 12] = [
    Case("", 0, 0),
    Case("(cell p (n 0))\n", 0, 0),
    Case("(calls)\n", 0, 1),
    Case("\n(calls)\n", 1, 2),
    Case("(cell p (n 0))\n(calls)\n(c 0)\n", 15, 2),
    Case("(calls)", 0, 0),
    Case("(cell p (n 0))\n(calls)", 0, 0),
    Case("(calls) \n", 0, 0),
    Case(" (calls)\n", 0, 0),
    Case("(calls)\r\n", 0, 0),
    Case("(calls)\n(calls)\n", 0, 1),
    Case("(calls) \n(calls)\n(calls)\n", 9, 2),
];

#[test]
fn first_calls(rt: HostRuntime) {
    for Case(input, at, line) in &CASES {
        let found = calls_line(input.as_bytes()).map(|calls| (calls.at, calls.line));
        let told = (*line != 0).then_some((*at, *line));
        assert_eq!(rt; found, told, "{}", *input);
    }
}
