// The calls that change no file's bytes, past refusals 1 and 2: fresh, enter, settle and fill over the single buffers that each of them changes or reads.
#![tactic(auto)]

pub mod enter;
pub mod fill;
pub mod fresh;
pub mod settle;
