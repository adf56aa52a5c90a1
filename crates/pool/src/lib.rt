// The lent words: where each thing stands, one reader and one writer for each, and what a sound pool means.
#![tactic(auto)]

mod action;
mod damage;
mod layout;
mod link;
mod readers;
mod writers;

pub use action::Action;
pub use damage::Damage;
pub use layout::{
    AT_CAPACITY, AT_COUNT, AT_ROOT, AT_STANDING, AT_TRIAL, CHANGED_OFFSET, CHANGES, LIMIT,
    MOST_WORDS, NEW_OFFSET, NEXT_OFFSET, OLD_OFFSET, PREFIX_OFFSET, joint, seat, size_of, slot,
};
pub use link::{Link, Place, inner_link, link_from, route_link};
pub use readers::{
    kind_at, left_at, mark_at, next_at, payload_at, payload_there, prefix_at, right_at, route_at,
};
pub use writers::{write_payload, write_prefix};
