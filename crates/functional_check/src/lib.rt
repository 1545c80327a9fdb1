//! Which formulas are sequential, and which of their variables are sure.
#![tactic(auto)]

pub use checking::{CheckFault, check, check_among};
pub use name_bits::NameBits;
pub use sure_variables::{sure, sure_among};

mod checking;
pub mod laws;
mod name_bits;
pub mod names;
mod sure_variables;
