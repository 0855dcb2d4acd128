// The rows of the steps that move a request or a line between a core and the manager, as code: serve and
// receive, evict, drop and writeback, yield and take; and of victim. What each makes of one core, its copy of
// a line and the manager's line.
//
// Every row takes any pieces and decides the refusals of its step, 21 and up: the number, with the pieces
// as they are.
#![tactic(auto, unfolding(protocol::specs::Tables::effect_of, protocol::specs::Tables::table_of, protocol::specs::Tables::evict_table, protocol::specs::Tables::serve_table, protocol::specs::Tables::serve_asked, protocol::specs::Tables::serve_load, protocol::specs::Tables::receive_table, protocol::specs::Tables::receive_grant, protocol::specs::Tables::receive_renew, protocol::specs::Tables::yield_table, protocol::specs::Tables::take_table, protocol::specs::Tables::victim_table, protocol::specs::Refusals::state_refusal, protocol::specs::Refusals::state_rules, protocol::specs::Pick::first))]

mod requests;
mod writebacks;

pub use requests::{receive, serve};
pub use writebacks::{drop, evict, take, victim, writeback, yield_line};
