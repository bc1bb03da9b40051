// Space time block coding for two antennas: its rule, promises and theorems. The code is in the crates `sttd_digits` and `sttd_values`: docs/RULES.md, 'STTD'; TS 25.211, 5.3.1.1.1.
#![tactic(auto)]
