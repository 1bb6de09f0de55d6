// The room that ties the theorems to the functions. For each function that others call there is one here that only calls it, and whose contract is what
// the theorems of `demands` start from: a function whose contract says less is refused here, whatever its own proof says. Both cite one definition, the
// promise, which stands beside the definition of the function's outcome. Each has a file of its own, so that it can be checked above its function alone.
// The two functions of `rows`, to which lists of structs are lent, are tied by their contracts: proofs/RowTies.
#![tactic(auto)]

pub mod of_elhavir_question;
pub mod of_elhavir_replay;
pub mod of_elhavir_run;
pub mod of_put_printed;
pub mod of_question;
pub mod of_read_model;
pub mod of_rebuild;
pub mod of_replay;
pub mod of_run;
pub mod of_write_cuts;
pub mod of_write_model;
