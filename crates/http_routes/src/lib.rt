//! Routes, the parts of a path, the members of requests, and answers in JSON, as values.
#![tactic(auto)]

mod answers;
mod body;
mod decoding;
mod found;
mod laws;
mod members;
mod parts;
mod router;

pub use answers::{bug_json, control_json, error_json, ok_json};
pub use body::parse;
pub use decoding::decoded_text;
pub use found::{Found, ListParts};
pub use laws::{a_path_has_one_route, paths_have_these_routes, the_router_finds_the_route};
pub use members::{
    ControlMembers, ReportMembers, branch_member, control_members, id_member, report_members,
};
pub use parts::path;
pub use router::{Route, RouteTable, method};
