//! Files of the program (own format, JSON): a world's edge nodes, hosts and events, a plant's plan, an edge node, the lines that tell of its
//! values, and the users of a broker. What is wrong with one is told with its place.
#![tactic(auto)]

mod edge;
mod events;
mod fault;
mod metrics;
mod misfit;
mod names;
mod nodes;
mod part;
mod plan;
mod reals;
mod script;
mod text;
mod twice;
mod user_limits;
mod user_lines;
mod users;
mod values;
mod world;

pub use edge::{Said, edge_of, line_of};
pub use fault::FileFault;
pub use misfit::{Cause, Misfit, Place};
pub use nodes::{MOST_NODES, Setup};
pub use plan::{plan_of, read_plan};
pub use reals::{double_json, float_json};
pub use user_lines::user_line;
pub use users::{Listed, user_of, users_of};
pub use world::{MOST_HOSTS, read_world, world_of};
