// The library that others call. Whatever is passed is judged: nothing is asked of the caller, and a refusal leaves everything lent as found.
#![tactic(auto)]

pub use asking::question;
pub use cut_reading::rebuild;
pub use cut_writing::write_cuts;
pub use fields::refusal::Refusal;
pub use reading::read_model;
pub use replay::ReplayRefusal;
pub use replaying::replay;
pub use running::{Answer, run};
pub use task::Shape;
pub use writing::write::write_model;
