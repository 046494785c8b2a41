// Code lines: show turns one back into colours, judge into a price.
#![tactic(auto)]

mod check;
mod fault;
mod judging;
mod showing;
mod texts;
mod walk;

pub use check::checks_stand;
pub use fault::{Fault, Layer};
pub use judging::judge;
pub use showing::show;
pub use texts::{Codes, Preview};
pub use walk::pixel_price;
