// The words of a case.

// The amount 0. Words are written here as numbers, as the format has them, and not by the functions that are tested.
const A: u32 = 0x6000_0000;

// The end word.
const END: u32 = 0x7000_0000;

// The names in a case: its second bus, the buses of its machines, and the payloads of its branches' first words.
#[derive(Clone, Copy)]
pub struct Names {
    pub bus: u32,
    pub stepped: u32,
    pub curved: u32,
    pub branch: u32,
    pub other: u32,
}

// Buses 7 and 4, a machine in steps at 4, a curved one at 7, and a branch either way.
pub const LAWFUL: Names = Names {
    bus: 4,
    stepped: 4,
    curved: 7,
    branch: 0x1_0407,
    other: 0x1_0704,
};

// A case with these names; its first bus is 7.
pub(crate) fn paper(names: Names) -> [u32; 38] {
    let Names {
        bus,
        stepped,
        curved,
        branch,
        other,
    } = names;
    [
        0x1000_0001,
        A + 5,
        A + 2,
        A + 1,
        A + 1,
        A + 2,
        0x2000_0007,
        A + 50,
        0x2000_0000 | bus,
        A,
        0x3000_0200 | stepped,
        A,
        A + 200,
        A + 9,
        A,
        A + 100,
        A + 3,
        0x4000_0000 | curved,
        A,
        A + 200,
        A + 1,
        A + 2,
        A + 3,
        0x5000_0000 | branch,
        A + 10,
        A,
        A + 100,
        A + 0x0fff_fffb,
        A + 5,
        A + 1,
        0x5000_0000 | other,
        A + 20,
        A,
        A,
        A,
        A,
        A,
        END,
    ]
}
