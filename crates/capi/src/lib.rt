// The C interface. Two calls on a state that is packed into 256 words, and on lent memory, page registers and ports, and for a run durations; two on mnemonic lines.
// A call answers 0 when it is done, else the number of a refusal, which changes nothing: 100 when there are not exactly 256 packed words,
// asked first, or the papers' number.
#![tactic(auto)]

pub mod call_load;
pub mod call_print;
pub mod call_read;
pub mod call_run;
