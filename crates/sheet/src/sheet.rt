// The record of a sheet.
ghost use Rattle.std.specs.Prelude.{◌≡◌};
ghost use Rattle.sheet.specs.Sheet.{sized, empty_sheet};

// The lines of a sheet by sections. Of a catalogue line: its letter and its two options; of an F line: the option and its weight;
// of a U line: the option that comes first, the other, and the weight. Entries past the counts are zero.
// Arrays with their counts beside them: there is no heap, and outside callers name the fields.
#[derive(Clone, Copy)]
pub struct Sheet {
    pub catalogue_lines: usize,
    pub option_count: usize,
    pub ordering_count: usize,
    pub letters: [u8; 512],
    pub befores: [u8; 512],
    pub afters: [u8; 512],
    pub numbers: [u8; 32],
    pub weights: [u16; 32],
    pub firsts: [u8; 64],
    pub seconds: [u8; 64],
    pub ordering_weights: [u16; 64],
}

impl Sheet {
    pub const MAX_BYTES: usize = 8192;

    pub const CATALOGUE: usize = 512;

    pub const OPTIONS: usize = 32;

    pub const ORDERINGS: usize = 64;

    pub const LARGEST_OPTION: u32 = 250;

    pub const LARGEST_WEIGHT: u32 = 9999;

    pub const LARGEST_VALUE: u32 = 959904;

    // A record with these counts and nothing in it.
    pub fn sized(catalogue_lines: usize, option_count: usize, ordering_count: usize) -> Sheet
        ensures { result ≡ sized catalogue_lines option_count ordering_count }
    {
        Sheet {
            catalogue_lines,
            option_count,
            ordering_count,
            letters: [0; 512],
            befores: [0; 512],
            afters: [0; 512],
            numbers: [0; 32],
            weights: [0; 32],
            firsts: [0; 64],
            seconds: [0; 64],
            ordering_weights: [0; 64],
        }
    }

    // The all-zero record.
    pub fn empty() -> Sheet
        ensures { result ≡ empty_sheet }
    {
        Sheet::sized(0, 0, 0)
    }
}
