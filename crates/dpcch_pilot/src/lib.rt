// The pilot bits of the uplink DPCCH (its rule, promises and theorems are those of the crates `dpch` and `dpcch`): docs/RULES.md, 'Uplink DPCCH'; TS 25.211, 5.2.1.1, tables 3 and 4.
#![tactic(auto)]

ghost use Rattle.std.specs.Prelude.{◌≡◌};
ghost use Rattle.dpcch.specs.Ready.{pilot_row, pilot_start};

// Table 4, one row per slot: the pilot of 7 bits, and behind it the one of 8.
static PILOT: [[u8; 15]; 15] = [
    [1, 1, 1, 1, 1, 0, 1, 1, 1, 1, 1, 1, 1, 1, 0],
    [1, 0, 0, 1, 1, 0, 1, 1, 0, 1, 0, 1, 1, 1, 0],
    [1, 0, 1, 1, 0, 1, 1, 1, 0, 1, 1, 1, 0, 1, 1],
    [1, 0, 0, 1, 0, 0, 1, 1, 0, 1, 0, 1, 0, 1, 0],
    [1, 1, 0, 1, 0, 1, 1, 1, 1, 1, 0, 1, 0, 1, 1],
    [1, 1, 1, 1, 1, 0, 1, 1, 1, 1, 1, 1, 1, 1, 0],
    [1, 1, 1, 1, 0, 0, 1, 1, 1, 1, 1, 1, 0, 1, 0],
    [1, 1, 0, 1, 0, 0, 1, 1, 1, 1, 0, 1, 0, 1, 0],
    [1, 0, 1, 1, 1, 0, 1, 1, 0, 1, 1, 1, 1, 1, 0],
    [1, 1, 1, 1, 1, 1, 1, 1, 1, 1, 1, 1, 1, 1, 1],
    [1, 0, 1, 1, 0, 1, 1, 1, 0, 1, 1, 1, 0, 1, 1],
    [1, 1, 0, 1, 1, 1, 1, 1, 1, 1, 0, 1, 1, 1, 1],
    [1, 1, 0, 1, 0, 0, 1, 1, 1, 1, 0, 1, 0, 1, 0],
    [1, 0, 0, 1, 1, 1, 1, 1, 0, 1, 0, 1, 1, 1, 1],
    [1, 0, 0, 1, 1, 1, 1, 1, 0, 1, 0, 1, 1, 1, 1],
];

// Table 4's row of a slot, zeros past the table.
#[tactic(auto, unfolding(dpcch::specs::Ready::pilot_row, dpch::specs::UplinkPilots::table4))]
pub fn pilot_row(slot: usize) -> [u8; 15]
    ensures { result ≡ pilot_row slot }
{
    PILOT.get(slot).copied().unwrap_or([0; 15])
}

// Where in that row the pilot of so many bits begins. The pilot of 6 bits is the beginning of the one of 7, and without its first bit it is the one of 5.
#[tactic(auto, unfolding(dpcch::specs::Ready::pilot_start))]
pub fn pilot_start(bits: usize) -> usize
    ensures { result ≡ pilot_start bits }
{
    match bits {
        8 => 7,
        5 => 1,
        _ => 0,
    }
}
