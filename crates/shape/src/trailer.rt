// Where the last whole line begins, and how many whole lines there are.
#[derive(Clone, Copy)]
pub struct LastLine {
    pub start: usize,
    pub lines: usize,
}
