// The behaviour of the board: what it is asked, what it answers, and the rules that the answers follow.
#![tactic(auto)]

pub mod answer;
pub mod call;
pub mod laws;
mod made;
pub mod plan;
pub mod report;
pub mod settings;
pub mod traces;

pub use answer::{Answer, Done, Outcome};
pub use call::Call;
pub use plan::{Plan, Told};
pub use report::Report;
pub use settings::Settings;
