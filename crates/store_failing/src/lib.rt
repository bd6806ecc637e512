//! A store round another that fails once, for tests alone.
#![tactic(auto)]

mod fail_at;

pub use fail_at::FailAt;
