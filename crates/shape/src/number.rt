// The numbers of a line, and the columns of the second and the third.
#[derive(Clone, Copy)]
pub struct Numbers {
    pub first: u32,
    pub second: u32,
    pub third: u32,
    pub second_column: usize,
    pub third_column: usize,
}
