// The high-speed data channel on two antennas: its rule, promises and theorems, and the lengths of its subframes: docs/RULES.md, 'HS-PDSCH'; TS 25.211, 5.3.3.13, table 26.
#![tactic(auto)]

ghost use Rattle.std.specs.Prelude.{◌≡◌};
ghost use Rattle.hspdsch.specs.Rule.{size};

// The digits of a subframe, 0 where there is no such format.
pub fn size_of(format: usize) -> usize
    ensures { result ≡ size format }
{
    match format {
        0 => 960,
        1 => 1920,
        _ => 0,
    }
}
