//! A world of registries, gates and groups, with its steps and answers, and the scripts that spell them.
//! A script's groups select by the kinds of `selection::Chosen`; what is written is exactly the text of the right answers.
pub use lb_script::run::run_script;
pub use lb_stream::counted::Counted;
pub use lb_world::answer::{Answer, SlotCounts, TargetList};
pub use lb_world::headline::simulate;
pub use lb_world::laws;
pub use lb_world::step::{CellKey, Listing, Step};
pub use lb_world::world::World;
