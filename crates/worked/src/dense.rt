// A job of 16 columns whose diagram has 5,621 nodes and 11,472 one-paths. It was found by hill climbing outside this program: from 32 random
// sets of two to four columns and a random need of 32 column marks, up to three sets or marks were changed at a time, and the change was kept
// if the diagram had no fewer nodes; this is the best of ten starts.
use job::Numbers;

pub const NUMBERS: Numbers<'static> = Numbers {
    columns: 16,
    forbidden: &[
        47616, 49416, 35480, 18445, 28674, 41918, 30721, 36992, 41482, 62833, 20484, 58102, 57352,
        58114, 41992, 61662, 50498, 45312, 6146, 14979, 51264, 25600, 10496, 53999, 28653, 53250,
        43032, 18754, 64131, 13940, 12320, 51088,
    ],
    marks: &[
        14, 14, 13, 8, 10, 17, 16, 17, 17, 8, 12, 8, 16, 16, 10, 12, 9, 17, 17, 6, 16, 1, 17, 13,
        17, 17, 16, 4, 17, 15, 14, 17, 16, 15, 14, 6, 11, 17, 12, 17, 16, 17, 16, 11, 17, 13, 0,
        17, 15, 17, 13, 7, 12, 17, 16, 17, 12, 16, 9, 13, 16, 17, 17, 18,
    ],
};
