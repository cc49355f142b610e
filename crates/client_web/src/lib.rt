//! What a client of another language asks of the proved core: its choice between a copy and the server, its
//! floors, and their state as bytes. Nothing is required of the caller's numbers, and nothing allocates.
#![tactic(auto)]

mod answer;
mod choice;
mod state;
mod table;
