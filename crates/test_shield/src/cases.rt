//! Steps by an independent model: `tools/shield/model.py cases 16 7`.

/// A step on the map of `asked`, and where the model has the robots go.
#[derive(Clone, Copy)]
pub(crate) struct Case {
    pub(crate) from: &'static [u32],
    pub(crate) order: &'static [u32],
    pub(crate) each: u16,
    pub(crate) cells: &'static [u32],
    pub(crate) to: &'static [u32],
}

const CASES: &[Case] = &[
    Case {
        from: &[6, 0, 8],
        order: &[2, 0, 1],
        each: 2,
        cells: &[6, 1, 0, 5, 3, 3],
        to: &[6, 0, 3],
    },
    Case {
        from: &[1, 3, 0, 4, 8, 6, 2],
        order: &[0, 1, 4, 6, 2, 5, 3],
        each: 2,
        cells: &[0, 6, 2, 4, 1, 5, 4, 9, 8, 9, 6, 6, 1, 1],
        to: &[0, 2, 5, 4, 8, 6, 1],
    },
    Case {
        from: &[5, 1, 4, 9],
        order: &[0, 2, 3, 1],
        each: 3,
        cells: &[6, 5, 5, 1, 2, 1, 4, 3, 3, 8, 4, 4],
        to: &[6, 1, 4, 8],
    },
    Case {
        from: &[1, 4, 8, 3],
        order: &[2, 3, 1, 0],
        each: 3,
        cells: &[6, 6, 1, 9, 3, 9, 9, 9, 3, 8, 4, 4],
        to: &[6, 3, 9, 8],
    },
    Case {
        from: &[8, 9, 0, 6, 2, 3],
        order: &[5, 0, 4, 2, 1, 3],
        each: 3,
        cells: &[9, 8, 9, 9, 8, 4, 1, 1, 5, 6, 1, 5, 1, 1, 3, 2, 2, 3],
        to: &[9, 4, 5, 6, 1, 2],
    },
    Case {
        from: &[1, 2, 3, 6, 4, 8, 0, 9],
        order: &[4, 5, 3, 2, 6, 0, 7, 1],
        each: 2,
        cells: &[0, 0, 1, 2, 2, 8, 5, 6, 9, 3, 9, 3, 5, 1, 9, 8],
        to: &[0, 1, 2, 6, 9, 3, 5, 8],
    },
    Case {
        from: &[2, 0, 3, 5, 4, 6],
        order: &[3, 5, 4, 0, 1, 2],
        each: 3,
        cells: &[1, 1, 1, 5, 1, 5, 8, 4, 8, 0, 0, 5, 9, 4, 9, 5, 6, 1],
        to: &[2, 1, 8, 0, 9, 5],
    },
    Case {
        from: &[6, 2, 5, 8],
        order: &[2, 3, 1, 0],
        each: 1,
        cells: &[1, 1, 6, 9],
        to: &[1, 2, 6, 9],
    },
    Case {
        from: &[4, 1, 8, 0, 2, 9, 6, 5],
        order: &[0, 1, 4, 2, 6, 5, 7, 3],
        each: 2,
        cells: &[4, 9, 2, 2, 3, 9, 5, 0, 2, 2, 8, 9, 1, 6, 0, 0],
        to: &[4, 1, 3, 0, 2, 8, 6, 5],
    },
    Case {
        from: &[3, 8, 2, 5],
        order: &[0, 3, 1, 2],
        each: 2,
        cells: &[4, 2, 8, 8, 3, 3, 5, 6],
        to: &[4, 8, 3, 5],
    },
    Case {
        from: &[3, 1],
        order: &[0, 1],
        each: 2,
        cells: &[2, 4, 0, 1],
        to: &[2, 0],
    },
    Case {
        from: &[8],
        order: &[0],
        each: 3,
        cells: &[8, 3, 8],
        to: &[8],
    },
    Case {
        from: &[3, 8, 1, 9, 2, 0, 4],
        order: &[3, 6, 5, 0, 2, 4, 1],
        each: 1,
        cells: &[2, 3, 0, 9, 3, 0, 9],
        to: &[3, 8, 1, 9, 2, 0, 4],
    },
    Case {
        from: &[5, 2, 4, 6, 1, 0, 3, 8],
        order: &[2, 3, 1, 5, 0, 4, 6, 7],
        each: 3,
        cells: &[
            5, 0, 5, 3, 3, 2, 3, 9, 9, 6, 5, 5, 1, 0, 0, 0, 0, 5, 3, 2, 8, 3, 3, 3,
        ],
        to: &[5, 2, 9, 6, 1, 0, 3, 8],
    },
    Case {
        from: &[9, 0],
        order: &[1, 0],
        each: 2,
        cells: &[4, 9, 5, 5],
        to: &[4, 5],
    },
    Case {
        from: &[0, 1, 4, 3, 6],
        order: &[0, 4, 1, 2, 3],
        each: 1,
        cells: &[0, 2, 3, 3, 6],
        to: &[0, 2, 4, 3, 6],
    },
];

/// The steps.
pub(crate) fn cases() -> &'static [Case] {
    CASES
}
