// A job of 16 columns as one in usual use: 20 forbidden sets of two to eight columns, and five small needs. Its columns are drawn with
// `Random::next` from the seed 88172645463325252: each number after the seed, divided by 65,536, modulo 16, is a column, which is passed over
// if its set or need has it. Set i has 2 + i % 7 columns, after them the needs have 4, 3, 2, 2 and 1.
use job::Numbers;

pub const NUMBERS: Numbers<'static> = Numbers {
    columns: 16,
    forbidden: &[
        20480, 1092, 170, 34178, 14409, 38957, 36028, 160, 18440, 41224, 34072, 15008, 55811,
        15473, 1025, 16912, 547, 3680, 50016, 45872,
    ],
    // (a and b) or (c and d); a and (b or c); a and b; a or b; a.
    marks: &[
        12, 0, 16, 15, 10, 16, 17, 18, 3, 4, 10, 17, 16, 18, 14, 0, 16, 18, 9, 5, 17, 18, 2, 18,
    ],
};
