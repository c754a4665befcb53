//! What a broker tells of itself, without IO (own rules): its figures as a page of Prometheus text over HTTP/1.1 (RFC 9112), and which
//! closes its log tells of.
#![tactic(auto)]

mod answering;
mod asked;
mod closes;
mod figures;
mod telling;

pub use answering::answer;
pub use asked::Asked;
pub use closes::Closes;
pub use figures::Figures;
pub use telling::Telling;
