// A part of a line. Numbers and words borrow the line's bytes, so that a kind's own reader can take them.
#[derive(Clone, Copy, Default)]
pub enum Token<'a> {
    // a place that holds no token
    #[default]
    End,
    Number(&'a [u8]),
    Word(&'a [u8]),
    Mark(u8),
    // what follows the tokens that have a place of their own
    Rest(&'a [u8]),
}
