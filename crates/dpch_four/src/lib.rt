// The pilot of four bits of the downlink DPCH on antenna 2 (its rule and theorems are those of the crate `dpch`): docs/RULES.md, 'DPCH on the second antenna'; TS 25.211, 5.3.2.1, table 14.
#![tactic(auto)]

ghost use Rattle.std.specs.Prelude.{◌≡◌};
ghost use Rattle.dpch.specs.SecondPilots.{second_pilot};

// The pattern of four bits does not begin the longer ones, and has a table of its own.
const FOUR2: [[u8; 4]; 15] = [
    [0, 1, 1, 0],
    [1, 0, 1, 0],
    [1, 1, 1, 0],
    [1, 0, 1, 0],
    [0, 0, 1, 0],
    [0, 1, 1, 0],
    [0, 1, 1, 0],
    [0, 0, 1, 0],
    [1, 1, 1, 0],
    [0, 1, 1, 0],
    [1, 1, 1, 0],
    [0, 0, 1, 0],
    [0, 0, 1, 0],
    [1, 0, 1, 0],
    [1, 0, 1, 0],
];

// The pilot of four bits on antenna 2.
pub fn pilot_four(slot: usize) -> [u8; 4]
    ensures { result ≡ second_pilot 4 slot }
{
    let table = FOUR2;
    match slot {
        0 => table[0],
        1 => table[1],
        2 => table[2],
        3 => table[3],
        4 => table[4],
        5 => table[5],
        6 => table[6],
        7 => table[7],
        8 => table[8],
        9 => table[9],
        10 => table[10],
        11 => table[11],
        12 => table[12],
        13 => table[13],
        14 => table[14],
        _ => [0, 0, 0, 0],
    }
}
