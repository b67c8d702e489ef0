//! Each component by itself.

mod agendas;
mod dues;
mod links;
mod logs;
mod losses;
mod masks;
mod numbers;
mod queues;
mod ranges;
mod refusals;
mod shelves;
