// The three counts that the requirements keep apart, each from 1.

// A catalogue number.
#[derive(Clone, Copy, Debug, PartialEq, Eq)]
pub struct Number(pub u8);

// A slot on the sheet: an option by its F line, or an ordering by its U line.
#[derive(Clone, Copy, Debug, PartialEq, Eq)]
pub struct Slot(pub u8);

// A place in the sequence.
#[derive(Clone, Copy, Debug, PartialEq, Eq)]
pub struct Position(pub u8);
