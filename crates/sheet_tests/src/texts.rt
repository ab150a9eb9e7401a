use sheet::Refusal;
use std::alloc::{AllocError, Global};
use std::process::Abort;

// A text is refused with this number and this line, or read where the number is 0; its note says which text it is.
pub fn check_refused(
    rt: &impl Abort,
    refusal: Option<Refusal>,
    number: u8,
    line: usize,
    note: &str,
) {
    let found = refusal.map(|refusal| {
        let notice = refusal.told();
        (notice.number, notice.first)
    });
    let told = (number != 0).then_some((number, line));
    assert_eq!(rt; found, told, "{}", note);
}

// The head, a part so many times, and the tail.
pub fn repeated(
    heap: Global,
    head: &str,
    times: usize,
    part: &str,
    tail: &str,
) -> Result<Vec<u8>, AllocError> {
    let mut text = Vec::new(heap);
    text.extend_from_slice(head.as_bytes())?;
    for _ in 0..times {
        text.extend_from_slice(part.as_bytes())?;
    }
    text.extend_from_slice(tail.as_bytes())?;
    Ok(text)
}
