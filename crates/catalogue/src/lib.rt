// The catalogue's precedences between subscribed options, as a table of rows. For the crates above: counts handed in must be those of a record.
#![tactic(auto)]

ghost use Rattle.std.specs.Prelude.{◌≡◌, ◌≤◌, length};
ghost use Rattle.catalogue.specs.Catalogue.{line_of, WithPair, WithLine, SaysBy};

use rows::Slots;

// Slot i before slot j, if both are there.
pub fn put_pair(t: [u32; 32], i: usize, j: usize, n: usize) -> [u32; 32]
    requires { n ≤ 32 }
    ensures { WithPair n t i j result }
{
    let mut table = t;
    if i < n && j < n {
        table[i] = table[i].put(j);
    }
    table
}

// What one line says: slot i before slot j, and after an X j before i too.
pub fn put_line(t: [u32; 32], letter: u8, i: usize, j: usize, n: usize) -> [u32; 32]
    requires { n ≤ 32 }
    ensures { WithLine n t (line_of letter i j) result }
{
    let said = put_pair(t, i, j, n);
    if letter == b'X' {
        return put_pair(said, j, i, n);
    }
    said
}

// What all lines say, by a table of slots; options that nobody subscribed are passed over. The lines are arrays side by side, as the record has them.
pub fn catalogue_rows<'a>(
    letters: &'a [u8],
    befores: &'a [u8],
    afters: &'a [u8],
    lines: usize,
    table: &'a [u8],
    n: usize,
) -> [u32; 32]
    requires n_bound { (n ≤ 32) × (length table.now ≡ 256) }
    requires lines_in_bounds { (lines ≤ length letters.now) × (lines ≤ length befores.now) × (lines ≤ length afters.now) }
    ensures { SaysBy n table.now letters.now befores.now afters.now lines result }
{
    let mut rows = [0; 32];
    for k in 0..lines {
        let i = usize::from(table[usize::from(befores[k])]);
        let j = usize::from(table[usize::from(afters[k])]);
        let said = put_line(rows, letters[k], i, j, n);
        rows = said;
    }
    rows
}
