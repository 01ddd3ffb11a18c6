//! Lines read and answered one after another: what is written is a stated function of what is read.
#![tactic(auto)]

mod end;
mod session;
mod text;

pub use end::Ended;
pub use session::run;
pub use text::answer_text;
