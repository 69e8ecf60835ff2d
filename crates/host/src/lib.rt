// The C interface, declared in include/shillingnook.h. Every function takes numbers of 32 bits and lent lists only: a list is a pointer and a count, an array of fixed
// length a pointer. What is answered goes into a lent array; what else is lent to be written stays as it was on a refusal.
#![tactic(auto)]

mod events;
mod plans;
mod runs;

pub use events::{shillingnook_cold_start, shillingnook_status, shillingnook_tick};
pub use plans::{shillingnook_check, shillingnook_lookup, shillingnook_words};
pub use runs::shillingnook_run;
