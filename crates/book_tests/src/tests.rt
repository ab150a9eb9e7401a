use super::calls::{Call, Random, make, spends};
use book::Book;
use book::counts::Counts;
use book::marks::Marks;
use book::worked::caught;
use std::process::Abort;

// Whether what a cell has left went from `old` to `new` as the call allows.
fn within(old: u8, new: u8, spent: Option<u8>) -> bool {
    match spent {
        None => 200 <= new,
        Some(most) => new <= old && old - new <= most,
    }
}

// Both books make one call, and agree on who is stale.
fn both(rt: &impl Abort, marks: &mut Marks, counts: &mut Counts, call: &Call) {
    make(marks, call);
    make(counts, call);
    for t in 0..18 {
        assert_eq!(rt; marks.is_stale(t), counts.is_stale(t));
    }
}

#[test]
fn books_agree(rt: HostRuntime) {
    let mut random = Random::new(2024);
    let mut marks = Marks::new();
    let mut counts = Counts::new();
    let mut seen_stale = false;
    for _ in 0..600 {
        let call = random.call();
        both(&rt, &mut marks, &mut counts, &call);
        seen_stale |= (0..16).any(|t| marks.is_stale(t));
    }
    assert!(rt; seen_stale);
}

#[test]
fn left_keeps_its_bounds(rt: HostRuntime) {
    let mut random = Random::new(7);
    let mut marks = Marks::new();
    let mut counts = Counts::new();
    let mut left = [255u8; 64];
    for _ in 0..600 {
        let call = random.call();
        both(&rt, &mut marks, &mut counts, &call);
        for (c, left) in left.iter_mut().enumerate() {
            assert_eq!(rt; marks.left_of(c), 255);
            let new = counts.left_of(c);
            assert!(rt; within(*left, new, spends(&call, c)));
            *left = new;
        }
    }
}

#[test]
fn the_last_count_is_no_hole(rt: HostRuntime) {
    let mut counts = Counts::new();
    let mut cells = [false; 64];
    cells[5] = true;
    for left in (0..256u16).rev() {
        assert_eq!(rt; counts.left_of(5) as u16, left);
        counts.begin(2);
        counts.note(2, 5, false);
        assert!(rt; !counts.is_stale(2));
        counts.finish(3, &cells);
        assert!(rt; counts.is_stale(2));
    }
    assert_eq!(rt; counts.left_of(5), 0);
    counts.begin(2);
    counts.note(2, 5, false);
    counts.finish(2, &cells);
    assert!(rt; !counts.is_stale(2));
    counts.rest();
    assert_eq!(rt; counts.left_of(5), 255);
}

fn nobody<B: Book>(rt: &impl Abort, book: &mut B) {
    let all = [true; 64];
    book.rest();
    book.note(1, 9, false);
    book.note(1, 64, true);
    book.note(16, 9, true);
    book.finish(16, &all);
    book.begin(usize::MAX);
    for t in 0..20 {
        assert!(rt; !book.is_stale(t));
    }
    assert_eq!(rt; book.left_of(63), 255);
    assert_eq!(rt; book.left_of(64), 0);
    book.finish(0, &all);
    assert!(rt; book.is_stale(1));
}

#[test]
fn nobody_does_nothing(rt: HostRuntime) {
    nobody(&rt, &mut Marks::new());
    nobody(&rt, &mut Counts::new());
}

#[test]
fn the_reader_is_caught(rt: HostRuntime) {
    let mut wanted = [false; 16];
    wanted[2] = true;
    assert_eq!(rt; caught(&mut Marks::new()), wanted);
    assert_eq!(rt; caught(&mut Counts::new()), wanted);
}
