use crate::texts::repeated;
use sheet::{Refusal, Sheet};
use std::alloc::Global;
use std::process::Abort;
use std::test::Fail;
use value::{Reading, Whole};

// Both modes, the least and the largest number, and all thirteen operations.
const WHOLES: &str = "(cell p (n -2147483648))\n(cell u (n 0))\n(const (n 2147483647))\n\
    (task 255)\n(r 3 0)\n(w 1 3)\n(k 0 0)\n(a 5 0 1 2)\n(z 3 0)\n(b 2)\n(s 1)\n(l)\n(e)\n(p 1)\n(u 0)\n(j 11)\n\
    (task 0)\n(f)\n";

const READINGS: &str =
    "(cell p (e))\n(cell u (a 43b40000))\n(const (n -1))\n(const (a 00000000))\n";

// The text comes back in front of what the output held; an output one byte too short stays as it was.
fn comes_back<F: Fn(&[u8], &mut [u8]) -> Result<usize, Refusal>>(
    rt: &impl Abort,
    heap: Global,
    text: &str,
    rewrite: F,
) -> Result<(), Fail>
    requires { F.IsAlwaysCallable rewrite }
{
    let n = text.len();
    assert!(rt; 0 < n && n < 1000);
    for room in n - 1..n + 4 {
        let mut out = repeated(heap, "", room, "#", "")?;
        let answer = rewrite(text.as_bytes(), out.as_mut_slice()).map_err(|e| e.told().number);
        let (told, front, rest) = if room < n {
            (Err(26), "", room)
        } else {
            (Ok(n), text, room - n)
        };
        assert_eq!(rt; answer, told);
        assert_eq!(rt; out, repeated(heap, front, rest, "#", "")?);
    }
    Ok(())
}

#[test]
fn round_trips(rt: HostRuntime) -> Result<(), Fail> {
    comes_back(&rt, rt.alloc(), WHOLES, |text, out| {
        Sheet::<Whole>::read(text)?.write(out)
    })?;
    comes_back(&rt, rt.alloc(), READINGS, |text, out| {
        Sheet::<Reading>::read(text)?.write(out)
    })
}
