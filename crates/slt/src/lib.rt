// The static library for a C host: it exports every call of include/slt.h. Each is that of a library slt_NAME and has its clauses; a library itself exports nothing to C, and
// no crate can stand on a static library.
#![tactic(auto)]

mod aich_calls;
mod antenna_calls;
mod bank_calls;
mod combiner_calls;
mod compressed_calls;
mod desk_calls;
mod dpcch_calls;
mod dpdch_calls;
mod frame_calls;
mod hspdsch_calls;
mod lengths_calls;
mod pccpch_calls;
mod pich_calls;
mod sample_calls;
mod slot_calls;
mod sttd_calls;
mod wake_calls;
