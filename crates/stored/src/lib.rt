// The tables of all transformations of one, two and three points: the cell in row s and column t holds the number of the transformation s, then t.

#![tactic(auto)]

ghost use Rattle.std.specs.Prelude.{◌≡◌};
ghost use Rattle.semigroups.specs.Transformations.{transformation_cells};

// The table of degree 3. The comment before each row gives the number and the images of s; the comment "then the identity" marks the cell in column 6, where t
// is the identity, so that it holds s again.
const PRODUCTS: [u8; 729] = [
    // 1: 1 1 1
    1, 1, 1, 1, 1, 1, // then the identity
    1, 1, 1, 14, 14, 14, 14, 14, 14, 14, 14, 14, 27, 27, 27, 27, 27, 27, 27, 27, 27,
    // 2: 1 1 2
    1, 1, 1, 2, 2, 2, // then the identity
    3, 3, 3, 13, 13, 13, 14, 14, 14, 15, 15, 15, 25, 25, 25, 26, 26, 26, 27, 27, 27,
    // 3: 1 1 3
    1, 2, 3, 1, 2, 3, // then the identity
    1, 2, 3, 13, 14, 15, 13, 14, 15, 13, 14, 15, 25, 26, 27, 25, 26, 27, 25, 26, 27,
    // 4: 1 2 1
    1, 1, 1, 4, 4, 4, // then the identity
    7, 7, 7, 11, 11, 11, 14, 14, 14, 17, 17, 17, 21, 21, 21, 24, 24, 24, 27, 27, 27,
    // 5: 1 2 2
    1, 1, 1, 5, 5, 5, // then the identity
    9, 9, 9, 10, 10, 10, 14, 14, 14, 18, 18, 18, 19, 19, 19, 23, 23, 23, 27, 27, 27,
    // 6: 1 2 3
    1, 2, 3, 4, 5, 6, // then the identity
    7, 8, 9, 10, 11, 12, 13, 14, 15, 16, 17, 18, 19, 20, 21, 22, 23, 24, 25, 26, 27,
    // 7: 1 3 1
    1, 4, 7, 1, 4, 7, // then the identity
    1, 4, 7, 11, 14, 17, 11, 14, 17, 11, 14, 17, 21, 24, 27, 21, 24, 27, 21, 24, 27,
    // 8: 1 3 2
    1, 4, 7, 2, 5, 8, // then the identity
    3, 6, 9, 10, 13, 16, 11, 14, 17, 12, 15, 18, 19, 22, 25, 20, 23, 26, 21, 24, 27,
    // 9: 1 3 3
    1, 5, 9, 1, 5, 9, // then the identity
    1, 5, 9, 10, 14, 18, 10, 14, 18, 10, 14, 18, 19, 23, 27, 19, 23, 27, 19, 23, 27,
    // 10: 2 1 1
    1, 1, 1, 10, 10, 10, // then the identity
    19, 19, 19, 5, 5, 5, 14, 14, 14, 23, 23, 23, 9, 9, 9, 18, 18, 18, 27, 27, 27,
    // 11: 2 1 2
    1, 1, 1, 11, 11, 11, // then the identity
    21, 21, 21, 4, 4, 4, 14, 14, 14, 24, 24, 24, 7, 7, 7, 17, 17, 17, 27, 27, 27,
    // 12: 2 1 3
    1, 2, 3, 10, 11, 12, // then the identity
    19, 20, 21, 4, 5, 6, 13, 14, 15, 22, 23, 24, 7, 8, 9, 16, 17, 18, 25, 26, 27,
    // 13: 2 2 1
    1, 1, 1, 13, 13, 13, // then the identity
    25, 25, 25, 2, 2, 2, 14, 14, 14, 26, 26, 26, 3, 3, 3, 15, 15, 15, 27, 27, 27,
    // 14: 2 2 2
    1, 1, 1, 14, 14, 14, // then the identity
    27, 27, 27, 1, 1, 1, 14, 14, 14, 27, 27, 27, 1, 1, 1, 14, 14, 14, 27, 27, 27,
    // 15: 2 2 3
    1, 2, 3, 13, 14, 15, // then the identity
    25, 26, 27, 1, 2, 3, 13, 14, 15, 25, 26, 27, 1, 2, 3, 13, 14, 15, 25, 26, 27,
    // 16: 2 3 1
    1, 4, 7, 10, 13, 16, // then the identity
    19, 22, 25, 2, 5, 8, 11, 14, 17, 20, 23, 26, 3, 6, 9, 12, 15, 18, 21, 24, 27,
    // 17: 2 3 2
    1, 4, 7, 11, 14, 17, // then the identity
    21, 24, 27, 1, 4, 7, 11, 14, 17, 21, 24, 27, 1, 4, 7, 11, 14, 17, 21, 24, 27,
    // 18: 2 3 3
    1, 5, 9, 10, 14, 18, // then the identity
    19, 23, 27, 1, 5, 9, 10, 14, 18, 19, 23, 27, 1, 5, 9, 10, 14, 18, 19, 23, 27,
    // 19: 3 1 1
    1, 10, 19, 1, 10, 19, // then the identity
    1, 10, 19, 5, 14, 23, 5, 14, 23, 5, 14, 23, 9, 18, 27, 9, 18, 27, 9, 18, 27,
    // 20: 3 1 2
    1, 10, 19, 2, 11, 20, // then the identity
    3, 12, 21, 4, 13, 22, 5, 14, 23, 6, 15, 24, 7, 16, 25, 8, 17, 26, 9, 18, 27,
    // 21: 3 1 3
    1, 11, 21, 1, 11, 21, // then the identity
    1, 11, 21, 4, 14, 24, 4, 14, 24, 4, 14, 24, 7, 17, 27, 7, 17, 27, 7, 17, 27,
    // 22: 3 2 1
    1, 10, 19, 4, 13, 22, // then the identity
    7, 16, 25, 2, 11, 20, 5, 14, 23, 8, 17, 26, 3, 12, 21, 6, 15, 24, 9, 18, 27,
    // 23: 3 2 2
    1, 10, 19, 5, 14, 23, // then the identity
    9, 18, 27, 1, 10, 19, 5, 14, 23, 9, 18, 27, 1, 10, 19, 5, 14, 23, 9, 18, 27,
    // 24: 3 2 3
    1, 11, 21, 4, 14, 24, // then the identity
    7, 17, 27, 1, 11, 21, 4, 14, 24, 7, 17, 27, 1, 11, 21, 4, 14, 24, 7, 17, 27,
    // 25: 3 3 1
    1, 13, 25, 1, 13, 25, // then the identity
    1, 13, 25, 2, 14, 26, 2, 14, 26, 2, 14, 26, 3, 15, 27, 3, 15, 27, 3, 15, 27,
    // 26: 3 3 2
    1, 13, 25, 2, 14, 26, // then the identity
    3, 15, 27, 1, 13, 25, 2, 14, 26, 3, 15, 27, 1, 13, 25, 2, 14, 26, 3, 15, 27,
    // 27: 3 3 3
    1, 14, 27, 1, 14, 27, // then the identity
    1, 14, 27, 1, 14, 27, 1, 14, 27, 1, 14, 27, 1, 14, 27, 1, 14, 27, 1, 14, 27,
];

// Returns the cells of the table of degree 1.
pub fn degree_1() -> [u8; 1]
    ensures composed { result ≡ transformation_cells 1 }
{
    [1]
}

// Returns the cells of the table of degree 2.
pub fn degree_2() -> [u8; 16]
    ensures composed { result ≡ transformation_cells 2 }
{
    [1, 1, 4, 4, 1, 2, 3, 4, 1, 3, 2, 4, 1, 4, 1, 4]
}

// Returns the cells of the table of degree 3.
pub fn degree_3() -> [u8; 729]
    ensures composed { result ≡ transformation_cells 3 }
{
    PRODUCTS
}
